// Bytes by their place, and bytes that are held in place.
#![tactic(auto)]

mod fixed;
mod places;

pub use fixed::{Fixed, Full};
pub use places::{after, byte_at, ten_bits, word_at};
