// The lines of a script: what each asks for, and what a receiver begins with by those of the set-up.
#![tactic(auto)]

mod asked;
mod beginning;
mod marks;
mod parts;
mod reading;
mod service;
mod settings;
mod spot;
mod words;

pub use asked::{Asked, SetKind, Setting};
pub use beginning::{BeginRefusal, Beginning, begin_with};
pub use reading::read_line;
pub use settings::Settings;
pub use spot::Spot;
