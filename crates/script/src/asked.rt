// What a line asks for.
use crate::spot::Spot;
use station::{Path, Service};

#[derive(Clone, Copy, PartialEq, Eq, Debug)]
pub enum SetKind {
    Bus,
    Map,
}

// What a line of the set-up settles.
#[derive(Clone, Copy, PartialEq, Eq, Debug)]
pub enum Setting {
    Set(SetKind),
    // one more service of the map
    Service(Service),
    // the number of the service that the map starts on
    Start(u32),
    Place(Spot),
    Path(Path),
    Clock(u32),
}

#[derive(Clone, Copy, PartialEq, Eq, Debug)]
pub enum Asked {
    // an empty line or a comment
    Nothing,
    Setting(Setting),
    Begin,
    // a section of so many bytes, and the same for its document: a number, since it may be longer than the room
    Section(u64),
    Document(u64),
    Tick(u32),
    Choose(u32),
    Unknown,
}
