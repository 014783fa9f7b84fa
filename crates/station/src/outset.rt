// What a receiver sets out with, besides its set.
use super::place::Place;
use super::service::Path;

#[derive(Clone, Copy, PartialEq, Eq, Debug)]
pub struct Outset {
    pub place: Place,
    pub path: Path,
    // in seconds
    pub clock: u32,
}
