// Services and what names them.
ghost use Rattle.std.specs.Prelude.{◌≡◌};
ghost use Rattle.station.specs.Names.{names_pair, names_id};
ghost use Rattle.station.specs.Services.{unmarked};

// 0 for none, as it is sent: an option would have to be made and taken apart wherever it is read or printed.
#[derive(Clone, Copy, PartialEq, Eq, Debug)]
pub struct SourceId(pub u16);

// each number to 1,023, both 0 for none, as they are sent
#[derive(Clone, Copy, PartialEq, Eq, Debug)]
pub struct ChannelPair {
    pub major: u16,
    pub minor: u16,
}

impl SourceId {
    // Whether it is that very ID, and is one at all.
    pub fn names(self, id: SourceId) -> bool
        ensures value { result ≡ names_id self id }
    {
        self != SourceId(0) && self == id
    }
}

impl ChannelPair {
    // Whether it is that very pair, and is one at all. A trait over this and the one above would be longer than both.
    pub fn names(self, pair: ChannelPair) -> bool
        ensures value { result ≡ names_pair self pair }
    {
        self != ChannelPair { major: 0, minor: 0 } && self == pair
    }
}

// How alerts reach the receiver.
#[derive(Clone, Copy, PartialEq, Eq, Debug)]
pub enum Path {
    InBand,
    OutOfBand,
}

#[derive(Clone, Copy, PartialEq, Eq, Debug)]
pub struct Service {
    pub source: SourceId,
    pub channel: ChannelPair,
    // access is controlled
    pub controlled: bool,
    // pay-per-view or on demand
    pub paid: bool,
    // its sound can be heard without leaving the picture
    pub apart: bool,
}

impl Service {
    // Neither controlled nor paid, nor to be heard apart.
    pub fn unmarked(source: SourceId, channel: ChannelPair) -> Service
        ensures value { result ≡ unmarked source channel }
    {
        Service {
            source,
            channel,
            controlled: false,
            paid: false,
            apart: false,
        }
    }
}
