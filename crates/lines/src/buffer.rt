// The line that is being read.
mod asking;
mod filling;
mod whole;

ghost use Rattle.std.specs.Prelude.{◌≤◌, vec_len};

use crate::tail::Tail;

// The first bytes of a line, and of those past them only their number and what they are. The line itself can be no
// ghost field (`ghost line: { List ℕ }` is refused: only a proposition, or data of a struct that owns raw memory), so
// clauses speak of it by `OfLine`.
#[derive(Drop)]
pub struct LineBuffer {
    kept: Vec<u8>,
    // as many bytes as are kept
    most: usize,
    // how many bytes came past them, up to the largest number
    past: u64,
    tail: Tail,
    ghost bounded: { vec_len kept ≤ most },
}

// How much was taken. Both fields say something in each case, so an enum would only hold the count twice.
#[derive(Clone, Copy, PartialEq, Eq, Debug)]
pub struct Taken {
    pub count: usize,
    // a line feed was the last of it
    pub ended: bool,
}
