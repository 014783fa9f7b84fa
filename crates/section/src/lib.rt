// Sections of cable emergency alerts: their rules, fields and parts.
#![tactic(auto)]

mod bytes;
mod check;
mod decode;
mod fields;
mod head;
mod laid;
mod layout;
mod part;
mod ranges;
mod refusal;
mod section;
mod walk;

pub use fields::{EventId, Fields, Minutes, Priority, Seconds, SequenceNumber, StartTime};
pub use part::Part;
pub use refusal::{QuestionRefusal, SectionRefusal};
pub use section::{Section, read};
