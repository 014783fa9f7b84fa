// The calls of a receiver and their replies, as plain values.
#![tactic(auto)]

mod answer;
mod call;
mod refusal;
mod reply;

pub use answer::Answer;
pub use call::Call;
pub use refusal::{CallRefusal, ChoiceRefusal, ReadingRefusal};
pub use reply::Reply;
