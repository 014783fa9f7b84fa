// What a receiver keeps between calls.
use decision::Alert;
use section::SequenceNumber;
use station::{Path, Place};

#[derive(Clone, Copy)]
pub struct State {
    pub place: Place,
    pub path: Path,
    // the latest granted reading, in seconds
    pub clock: u32,
    // the viewer's service
    pub home: usize,
    // of the latest well-formed section
    pub last: Option<SequenceNumber>,
    // in force
    pub alert: Option<Alert>,
}
