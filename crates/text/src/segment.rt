// Segments: where they end, and which can be read.
ghost use Rattle.std.specs.Prelude.{◌≡◌, take};
ghost use Rattle.text.specs.Structure.{Segment as OneSegment, segment_at, segment_size};
ghost use Rattle.text.specs.Bounds.{segments_small};
ghost use Rattle.text.specs.Reading.{readable};
ghost use Rattle.text.specs.Seen.{seen_segment};

use crate::run::Parts;
use octets::{after, byte_at};

#[derive(Clone, Copy)]
pub(crate) struct Segment<'a> {
    pub compression: u8,
    pub mode: u8,
    pub letters: &'a [u8],
}

impl<'a> Segment<'a> {
    pub(crate) fn is_readable(&self) -> bool
        ensures value { result ≡ readable (seen_segment self.now) }
    {
        self.compression == 0 && self.mode <= 6
    }
}

// The first bytes, as many as there are.
pub(crate) fn front(bytes: &[u8], n: usize) -> &[u8]
    ensures value { result.now ≡ take n bytes.now }
{
    bytes.get(..n).unwrap_or(bytes)
}

// The segments of a string.
#[derive(Clone, Copy)]
pub(crate) struct Segments;

impl<'a> Parts<'a> for Segments {
    type Part = Segment<'a>;

    ghost Stated = { OneSegment };

    ghost stated = { seen_segment };

    ghost at = { segment_at };

    ghost size = { segment_size };

    ghost most = { 258 };

    ghost small = { segments_small };

    fn read(bytes: &'a [u8]) -> Segment<'a> {
        Segment {
            compression: byte_at(bytes, 0),
            mode: byte_at(bytes, 1),
            letters: front(after(bytes, 3), usize::from(byte_at(bytes, 2))),
        }
    }

    fn size_of(bytes: &'a [u8]) -> usize {
        3 + usize::from(byte_at(bytes, 2))
    }
}
