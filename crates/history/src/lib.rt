// Runs of calls: the law that every run keeps, and what a receiver keeps of one.
#![tactic(auto)]

mod law;
mod state;

pub use law::{calls_determine_the_set_and_the_replies, edge_cases_stand};
pub use state::State;
