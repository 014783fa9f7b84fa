// The numbers of a section whose places are known.
ghost use Rattle.std.specs.Prelude.{◌≡◌, ◌+◌};
ghost use Rattle.section.specs.Values.{fields_of, start_of};
ghost use Rattle.section.specs.Places.{word};

use super::fields::{EventId, Fields, Minutes, Priority, Seconds, SequenceNumber, StartTime};
use super::laid::Laid;
use octets::{byte_at, word_at};
use station::{ChannelPair, SourceId};

impl<'a> Laid<'a> {
    // Two bytes as a number, so far past the first of the times.
    fn timed(&self, past: u8) -> u16
        ensures value { result ≡ word self.now.bytes.now (self.now.layout.times + past) }
    {
        word_at(self.bytes, self.layout.times + usize::from(past))
    }

    // Four bytes as a number, the first highest.
    fn start_time(&self) -> StartTime
        ensures value { result ≡ record { 0 = start_of self.now.bytes.now } }
    {
        let at = self.layout.times + 1;
        StartTime(u32::from_be_bytes([
            byte_at(self.bytes, at),
            byte_at(self.bytes, at + 1),
            byte_at(self.bytes, at + 2),
            byte_at(self.bytes, at + 3),
        ]))
    }

    // All the numbers.
    pub(crate) fn decode(&self) -> Fields
        ensures value { result ≡ fields_of self.now.bytes.now }
    {
        Fields {
            sequence: SequenceNumber(byte_at(self.bytes, 5) / 2 % 32),
            event_id: EventId(word_at(self.bytes, 9)),
            originator: [
                byte_at(self.bytes, 11),
                byte_at(self.bytes, 12),
                byte_at(self.bytes, 13),
            ],
            seconds: Seconds(byte_at(self.bytes, self.layout.times)),
            start: self.start_time(),
            duration: Minutes(self.timed(5)),
            priority: Priority(byte_at(self.bytes, self.layout.times + 8) % 16),
            details_source: SourceId(self.timed(9)),
            details_channel: ChannelPair {
                major: self.timed(11) % 1024,
                minor: self.timed(13) % 1024,
            },
            audio_source: SourceId(self.timed(15)),
        }
    }
}
