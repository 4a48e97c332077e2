// A list of at most `N` items, without allocation. It has no model: what is copied would have to be made again of its list,
// which tells nothing of the places that are not in use.
ghost use Rattle.std.specs.Prelude.{◌≡◌, ◌≤◌, ⊤, length};

mod methods;

use std::alloc::AllocError;

#[derive(Copy)]
pub struct Bounded<T: Copy, const N: usize> {
    items: [T; N],
    len: usize,
    ghost fits: { len ≤ N },
    ghost full: { length items ≡ N },
}

// A copy, which never fails. A generic struct with a ghost field derives none.
impl<T: Copy, const N: usize> Clone for Bounded<T, N> {
    ghost is_clone = { λ a b. a ≡ b };

    ghost is_infallible = { λ _. ⊤ };

    fn clone(&self) -> Result<Bounded<T, N>, AllocError> {
        Ok(*self)
    }
}
