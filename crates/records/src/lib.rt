// Records of output: text and numbers put together before they are written.
#![tactic(auto)]

mod hex;
mod record;

pub use record::Record;
