// A list with room for ROOM items, which lie in the value itself; the newest is last.
ghost use Rattle.std.specs.Prelude.{◌≡◌, ◌≤◌, ⊤};

use std::alloc::AllocError;

#[derive(Copy)]
pub struct ShortList<T, const ROOM: usize> {
    // an array and a length: the core allocates nothing, and heaps and channels may not cease to be Copy, which an ArrayVec is not
    items: [T; ROOM],
    len: usize,
    ghost short: { len ≤ ROOM },
}

// A copy. Written out: the check derives no Clone for a generic struct with a ghost field.
impl<T: Copy, const ROOM: usize> Clone for ShortList<T, ROOM> {
    ghost is_clone = { λ x y. y ≡ x };

    ghost is_infallible = { λ _. ⊤ };

    fn clone(&self) -> Result<Self, AllocError> {
        Ok(*self)
    }
}

mod changes;
mod reads;
