// Exception entries.
ghost use Rattle.std.specs.Prelude.{◌≡◌};
ghost use Rattle.entries.specs.Exceptions.{flagged, major_of, minor_of, source_of, exception_of, names_tuned};
ghost use Rattle.entries.specs.Widths.{five_bytes};

use super::entry::Entry;
use super::tuned::Tuned;
use octets::{byte_at, ten_bits, word_at};
use station::{ChannelPair, Path, SourceId};

// What an exception entry states.
#[derive(Clone, Copy, PartialEq, Eq, Debug)]
pub enum Exception {
    // for the in-band path
    Channel(ChannelPair),
    // for the out-of-band path
    Source(SourceId),
}

// Whether the entry is for the in-band path.
fn is_flagged(entry: &[u8]) -> bool
    ensures value { result ≡ flagged entry.now }
{
    byte_at(entry, 0) >= 128
}

fn channel_of(entry: &[u8]) -> ChannelPair
    ensures value { result ≡ record { major = major_of entry.now; minor = minor_of entry.now } }
{
    ChannelPair {
        major: ten_bits(entry, 1),
        minor: ten_bits(entry, 3),
    }
}

fn source_of(entry: &[u8]) -> SourceId
    ensures value { result ≡ record { 0 = source_of entry.now } }
{
    SourceId(word_at(entry, 3))
}

impl Exception {
    // Of the entry at the front, past the bytes of zeros.
    pub fn read(entry: &[u8]) -> Exception
        ensures value { result ≡ exception_of entry.now }
    {
        if is_flagged(entry) {
            Exception::Channel(channel_of(entry))
        } else {
            Exception::Source(source_of(entry))
        }
    }
}

impl Entry for Exception {
    type Thing = Tuned;

    ghost width = { 5 };

    ghost named = { names_tuned };

    ghost some = { five_bytes };

    fn size() -> usize {
        5
    }

    fn names(entry: &[u8], tuned: &Tuned) -> bool {
        match (tuned.path, Exception::read(entry)) {
            (Path::InBand, Exception::Channel(pair)) => pair.names(tuned.service.channel),
            (Path::OutOfBand, Exception::Source(id)) => id.names(tuned.service.source),
            _ => false,
        }
    }
}
