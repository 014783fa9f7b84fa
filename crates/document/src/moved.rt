// Documents as values that are moved: each is the length of what stands at the front of a lent buffer, since
// no heap is asked for.
// Two types for the two states, so that only a gathered document is filled, and only a filled one handed out.
use crate::unfilled::FillRefusal;

// A document that was gathered into a work buffer. It is neither copied nor cloned, so it is filled once.
#[derive(Drop)]
pub struct Gathered {
    size: usize,
}

// A document that was filled with an alert's words.
#[derive(Drop)]
pub struct Filled {
    size: usize,
}

// A filling that was refused, with the gathered document given back.
#[derive(Drop)]
pub struct Unfilled {
    pub refusal: FillRefusal,
    pub gathered: Gathered,
}

mod filling;
mod gathering;
mod handing;

pub use filling::fill;
pub use gathering::gather;
pub use handing::hand_out;
