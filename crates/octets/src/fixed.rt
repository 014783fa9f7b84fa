// A few bytes, held in place: no heap is asked for.
ghost use Rattle.std.specs.Prelude.{◌≤◌};

mod filling;

// At most so many bytes. It has no model of its own, since a `Copy` struct that holds one is not copied,
// and is not the kit's `ArrayVec`, which is not `Copy`.
#[derive(Clone, Copy)]
pub struct Fixed<const MOST: usize> {
    bytes: [u8; MOST],
    len: usize,
    ghost within: { len ≤ MOST },
}

// There is not so much room.
#[derive(Clone, Copy, PartialEq, Eq, Debug)]
pub struct Full;
