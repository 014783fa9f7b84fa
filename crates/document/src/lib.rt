// Metadata documents: gathered from a section's descriptors, filled with an alert's words, and handed out.
#![tactic(auto)]

mod binding;
mod delivery;
mod escape;
mod moved;
mod placeholder;
mod refusal;
mod slots;
mod undelivered;
mod unfilled;
mod walk;
mod withheld;

pub use delivery::deliver;
pub use moved::{Filled, Gathered, Unfilled, fill, gather, hand_out};
pub use refusal::DocumentRefusal;
pub use undelivered::Undelivered;
pub use unfilled::FillRefusal;
pub use withheld::HandOutRefusal;
