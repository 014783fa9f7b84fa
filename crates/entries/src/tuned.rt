// A service on the path by which alerts reach the receiver.
use station::{Path, Service};

#[derive(Clone, Copy, PartialEq, Eq, Debug)]
pub struct Tuned {
    pub service: Service,
    pub path: Path,
}
