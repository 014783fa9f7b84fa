// The numbers of a section, each of a type of its own so that kinds cannot cross. Where 0 stands for none it stays 0, as it
// is sent: an option would have to be made and taken apart wherever the number is printed.
use station::{ChannelPair, SourceId};

// 5 bits
#[derive(Clone, Copy, PartialEq, Eq, Debug)]
pub struct SequenceNumber(pub u8);

#[derive(Clone, Copy, PartialEq, Eq, Debug)]
pub struct EventId(pub u16);

// how long an alert still lasts; 0 for no end
#[derive(Clone, Copy, PartialEq, Eq, Debug)]
pub struct Seconds(pub u8);

// seconds since the start of 6 January 1980, or 0 for an event that is on
#[derive(Clone, Copy, PartialEq, Eq, Debug)]
pub struct StartTime(pub u32);

// how long an event lasts; 0 for unknown
#[derive(Clone, Copy, PartialEq, Eq, Debug)]
pub struct Minutes(pub u16);

// 4 bits
#[derive(Clone, Copy, PartialEq, Eq, Debug)]
pub struct Priority(pub u8);

#[derive(Clone, Copy, PartialEq, Eq, Debug)]
pub struct Fields {
    pub sequence: SequenceNumber,
    pub event_id: EventId,
    pub originator: [u8; 3],
    pub seconds: Seconds,
    pub start: StartTime,
    pub duration: Minutes,
    pub priority: Priority,
    pub details_source: SourceId,
    pub details_channel: ChannelPair,
    pub audio_source: SourceId,
}
