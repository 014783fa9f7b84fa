// The check word of a section.
#![tactic(auto)]

mod register;
mod tables;

pub use register::check_word;
