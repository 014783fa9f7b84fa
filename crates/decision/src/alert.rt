// An alert as the receiver keeps it.
use section::{EventId, Priority};
use text::Text;

// One mark for each possible service: excepted from the alert, or not. In place, since no heap is asked for.
#[derive(Clone, Copy)]
pub struct Excepted {
    pub marks: [bool; 256],
}

#[derive(Clone, Copy)]
pub struct Alert {
    pub event_id: EventId,
    pub priority: Priority,
    // the reading of the clock at which it goes; none for an alert without end
    pub end: Option<u64>,
    // the details service, if it is on the set
    pub details: Option<usize>,
    // the service whose sound can be borrowed, if there is one
    pub sound: Option<usize>,
    pub text: Text,
    pub excepted: Excepted,
}
