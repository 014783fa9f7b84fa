// The entries of a section: the places that it names and the services that it excepts.
#![tactic(auto)]

mod asking;
mod entry;
mod exceptions;
mod locations;
mod tuned;

pub use asking::{excepts, naming_location};
pub use entry::{Entry, search};
pub use exceptions::Exception;
pub use locations::Location;
pub use tuned::Tuned;
