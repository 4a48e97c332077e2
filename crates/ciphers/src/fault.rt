// The one error of all four libraries: which refusal, from which layer, at which place, for which reason.
// It is made once, where a call refuses, and each call above hands it on by `?` unchanged.
ghost use Rattle.std.specs.Prelude.{◌≡◌, Some};
ghost use Rattle.ciphers.specs.Printed.{words_of, has_reason, printed};
ghost use Rattle.ciphers.specs.Faults.{number_of, letter_of, fault, placed, reasoned};

use std::fmt;

// Why a call refused, each with its number in the table of docs/refusals.md.
#[derive(Clone, Copy, PartialEq, Eq, Debug)]
pub enum Refusal {
    EmptyKeyset = 1,
    ZeroKeyId = 2,
    NoKeyData = 3,
    UnknownPrefixType = 4,
    UnknownStatus = 5,
    SecondPrimary = 6,
    NoneEnabled = 7,
    NoPrimary = 8,
    UnknownMaterial = 9,
    KeyNotFound = 10,
    KeyIsPrimary = 11,
    StatusBars = 12,
    NotRegistered = 13,
    RegisteredAlready = 14,
    EmptyValue = 15,
    KeyManagerReason = 16,
    NoWordLeft = 20,
    KeysetFull = 21,
    DoesNotOpen = 22,
    BreaksEncoding = 23,
    HoldsNothing = 24,
    Damaged = 25,
    WrongSize = 26,
    VersionTooHigh = 27,
}

// Which layer refused. `letter` gives each its letter.
#[derive(Clone, Copy, PartialEq, Eq, Debug)]
pub enum Layer {
    Manager,
    Validation,
    Handle,
    Registry,
    KeyManager,
    Draws,
    Aead,
    Encoding,
    Store,
}

// The place is a key's position, a field's offset or 0; the reason is a key manager's own number or 0. Both are numbers and no
// options by rule: every fault has them and prints its place, and either may be stamped on any fault.
#[derive(Clone, Copy, PartialEq, Eq, Debug)]
pub struct Fault {
    pub refusal: Refusal,
    pub layer: Layer,
    pub place: usize,
    pub reason: u32,
}

impl Refusal {
    pub fn number(&self) -> u8
        ensures { result ≡ number_of self.now }
    {
        *self as u8
    }

    // What a person reads, as the table of refusals has it.
    pub fn words(&self) -> &'static str
        ensures { result.now ≡ words_of self.now }
    {
        match self {
            Refusal::EmptyKeyset => "the keyset has no key",
            Refusal::ZeroKeyId => "a key has id 0",
            Refusal::NoKeyData => "a key has no key data",
            Refusal::UnknownPrefixType => "the prefix type is not 1 to 4",
            Refusal::UnknownStatus => "the status is not 1 to 3",
            Refusal::SecondPrimary => "a second Enabled key has the primary id",
            Refusal::NoneEnabled => "no key is Enabled",
            Refusal::NoPrimary => "no Enabled primary, and an Enabled key is not public",
            Refusal::UnknownMaterial => "the key material type is not 0 to 4",
            Refusal::KeyNotFound => "no key has that id",
            Refusal::KeyIsPrimary => "that id is the primary id",
            Refusal::StatusBars => "the key's status bars the edit",
            Refusal::NotRegistered => "the type is not registered",
            Refusal::RegisteredAlready => "the type is registered already",
            Refusal::EmptyValue => "the key's value is empty",
            Refusal::KeyManagerReason => "the key manager refused",
            Refusal::NoWordLeft => "the draw source has no word left",
            Refusal::KeysetFull => "the keyset has 16 keys",
            Refusal::DoesNotOpen => "the ciphertext does not open",
            Refusal::BreaksEncoding => "the bytes break the encoding or a limit",
            Refusal::HoldsNothing => "the store holds nothing",
            Refusal::Damaged => "the store is damaged",
            Refusal::WrongSize => "something is too short or too long",
            Refusal::VersionTooHigh => "the key's version is above the highest",
        }
    }
}

impl Layer {
    // The layer's letter in the table of docs/refusals.md.
    pub fn letter(&self) -> char
        ensures { result ≡ letter_of self.now }
    {
        match self {
            Layer::Manager => 'M',
            Layer::Validation => 'V',
            Layer::Handle => 'H',
            Layer::Registry => 'R',
            Layer::KeyManager => 'K',
            Layer::Draws => 'D',
            Layer::Aead => 'A',
            Layer::Encoding => 'C',
            Layer::Store => 'S',
        }
    }
}

impl Fault {
    // A fault at place 0 with reason 0.
    pub fn new(refusal: Refusal, layer: Layer) -> Fault
        ensures { result ≡ fault refusal layer }
    {
        Fault {
            refusal,
            layer,
            place: 0,
            reason: 0,
        }
    }

    // The same fault, stamped with the place where it arose.
    pub fn at(self, place: usize) -> Fault
        ensures { result ≡ placed place self }
    {
        Fault { place, ..self }
    }

    // The same fault with a key manager's reason.
    pub fn because(self, reason: u32) -> Fault
        ensures { result ≡ reasoned reason self }
    {
        Fault { reason, ..self }
    }

    pub fn number(&self) -> u8
        ensures { result ≡ number_of self.now.refusal }
    {
        self.refusal.number()
    }

    // Only a key manager gives a reason.
    fn has_reason(&self) -> bool
        ensures { result ≡ has_reason self.now }
    {
        self.refusal == Refusal::KeyManagerReason
    }

    pub fn letter(&self) -> char
        ensures { result ≡ letter_of self.now.layer }
    {
        self.layer.letter()
    }
}

// As `refused 12 M at 3: the key's status bars the edit`; a key manager's reason follows its number. Written by hand, since
// the contract pins the text, and nothing is said of what a derive prints.
impl fmt::Display for Fault {
    ghost output = { λ f. Some (printed f) };

    fn fmt<W: fmt::Write>(&self, f: &mut fmt::Formatter<W>) -> fmt::Result {
        let number = self.number();
        let letter = self.letter();
        let place = self.place;
        let words = self.refusal.words();
        if self.has_reason() {
            let reason = self.reason;
            return write!(
                f,
                "refused {number} {letter} at {place}: {words}, reason {reason}"
            );
        }
        write!(f, "refused {number} {letter} at {place}: {words}")
    }
}
