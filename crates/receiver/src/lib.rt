// The receiver of alerts: it keeps the alert in force over whole runs of calls and drives any set.
#![tactic(auto)]

mod judge;
mod moving;
mod receiver;
mod runs;
mod sheet;

pub use receiver::Receiver;
pub use runs::{carry_on, rehearse};
