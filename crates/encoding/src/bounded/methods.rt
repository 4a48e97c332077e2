// What a bounded list can do. Its meaning is `list`, and every contract speaks of that.
ghost use Rattle.std.specs.Prelude.{◌≡◌, ◌+◌, ◌-◌, ◌<◌, [], ◌∷◌, ◌++◌, length, take, drop, replicate, MatchResult, ◌==◌, nat_lt, is_some, slice_set};
ghost use Rattle.ciphers.specs.Faults.{fault};
ghost use Rattle.ciphers.specs.declared.fault.Refusal.TheVariants.{BreaksEncoding};
ghost use Rattle.ciphers.specs.declared.fault.Layer.TheVariants.{Encoding};
ghost use Rattle.encoding.specs.Lists.{list, unused, item};

use crate::bounded::Bounded;
use crate::content::broken;
use ciphers::fault::Fault;

impl<T: Copy, const N: usize> Bounded<T, N> {
    // `blank` fills the places that are not in use.
    pub fn empty(blank: T) -> Bounded<T, N>
        ensures items { list result ≡ [] }
        ensures rest { unused result ≡ replicate (N - result.len) blank }
    {
        Bounded {
            items: [blank; N],
            len: 0,
        }
    }

    // The items of a slice, or a refusal if there are more than `N`.
    pub fn from_slice(from: &[T], blank: T) -> Result<Bounded<T, N>, Fault>
        ensures { MatchResult result
            (λ b. (list b ≡ from.now) × (unused b ≡ replicate (N - b.len) blank))
            (λ f. (f ≡ fault BreaksEncoding Encoding) × (N < length from.now)) }
    {
        if from.len() > N {
            return Err(broken());
        }
        let mut items = [blank; N];
        let len = from.len();
        items[..len].copy_from_slice(from);
        Ok(Bounded { items, len })
    }

    pub fn len(&self) -> usize
        ensures { result ≡ length (list self.now) }
    {
        let count = self.len;
        count
    }

    pub fn is_empty(&self) -> bool
        ensures { result ≡ (length (list self.now) == 0) }
    {
        self.len == 0
    }

    pub fn as_slice(&self) -> &[T]
        ensures { result.now ≡ list self.now }
    {
        let n = self.len;
        let all = &self.items[..];
        &all[0..n]
    }

    pub fn get(&self, at: usize) -> Option<T>
        ensures { result ≡ item (list self.now) at }
    {
        self.as_slice().get(at).copied()
    }

    // One more item at the end, or a refusal if the list is full.
    pub fn push(&mut self, x: T) -> Result<(), Fault>
        ensures { MatchResult result
            (λ _. (length (list self.old) < N) × (list self.new ≡ list self.old ++ (x ∷ [])))
            (λ f. (f ≡ fault BreaksEncoding Encoding) × (length (list self.old) ≡ N) × (self.new ≡ self.old)) }
    {
        let n = self.len;
        if n >= N {
            return Err(broken());
        }
        self.items[n] = x;
        self.len = n + 1;
        Ok(())
    }

    // Another item at a place, for the one that stood there; or nothing if the list does not reach it.
    pub fn set(&mut self, at: usize, x: T) -> Option<T>
        ensures found { result ≡ item (list self.old) at }
        ensures variant { is_some result ≡ nat_lt at (length (list self.old)) }
        ensures items { list self.new ≡ slice_set (list self.old) at x }
    {
        let found = self.get(at)?;
        self.items[at] = x;
        Some(found)
    }

    // Takes the item at a place out, if the list reaches it. Those after it each move one to the front, and `blank` fills the
    // place that the last one leaves.
    pub fn remove(&mut self, at: usize, blank: T) -> Option<T>
        ensures found { result ≡ item (list self.old) at }
        ensures variant { is_some result ≡ nat_lt at (length (list self.old)) }
        ensures items { list self.new ≡ take at (list self.old) ++ drop (at + 1) (list self.old) }
    {
        let found = self.get(at)?;
        let last = self.len - 1;
        self.items.copy_within(at + 1..self.len, at);
        self.items[last] = blank;
        self.len = last;
        Some(found)
    }
}
