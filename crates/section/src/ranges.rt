// The ranges that a section's numbers keep.
ghost use Rattle.std.specs.Prelude.{◌≡◌, ◌<◌};
ghost use Rattle.entries.specs.Finding.{entry_at};
ghost use Rattle.section.specs.Rules.{located, all_located, bounded, ranged};

use super::bytes::part_of;
use super::laid::Laid;
use super::layout::Span;
use entries::Location;
use octets::byte_at;

// One location entry, at the front.
fn is_located(entry: &[u8]) -> bool
    ensures value { result ≡ located entry.now }
{
    let location = Location::read(entry);
    location.state <= 99 && location.part <= 9 && location.county <= 999
}

// The bytes of the location entry number k, as far as there are any.
fn location_bytes(entries: &[u8], k: usize) -> &[u8]
    requires { k < 256 }
    ensures value { result.now ≡ entry_at 3 entries.now k }
{
    part_of(
        entries,
        Span {
            start: k * 3,
            end: k * 3 + 3,
        },
    )
}

// Each of so many location entries.
fn all_located(count: u8, entries: &[u8]) -> bool
    ensures value { result ≡ all_located count entries.now }
{
    // By number and not by `chunks`: entries past the bytes are zeros, and count.
    (0..usize::from(count)).all(|k| is_located(location_bytes(entries, k)))
}

// The alert's seconds and the number of its location entries.
fn is_bounded(seconds: u8, count: u8) -> bool
    ensures value { result ≡ bounded seconds count }
{
    seconds <= 120 && (1..=31).contains(&count)
}

impl<'a> Laid<'a> {
    // Seconds, the number of location entries, and each of them.
    pub(crate) fn is_ranged(&self) -> bool
        ensures value { result ≡ ranged self.now.bytes.now }
    {
        let count = self.layout.location_count;
        is_bounded(byte_at(self.bytes, self.layout.times), count)
            && all_located(count, part_of(self.bytes, self.layout.locations))
    }
}
