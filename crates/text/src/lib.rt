// Text fields: the multiple string structure and what it says in English.
#![tactic(auto)]

mod characters;
mod line;
mod reading;
mod refusal;
mod run;
mod segment;
mod spoken;
mod structure;

pub use line::{LONGEST, Text};
pub use reading::{english, write_english};
pub use refusal::TextRefusal;
pub use structure::is_structured;
