// What a station knows: where it stands, its services and how alerts reach it.
#![tactic(auto)]

mod outset;
mod place;
mod refusal;
mod service;

pub use outset::Outset;
pub use place::Place;
pub use refusal::PlaceRefusal;
pub use service::{ChannelPair, Path, Service, SourceId};
