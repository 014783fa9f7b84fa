// Strings: their language and their segments.
ghost use Rattle.std.specs.Prelude.{◌≡◌};
ghost use Rattle.text.specs.Structure.{Spoken as OneString, string_at, string_size};
ghost use Rattle.text.specs.Bounds.{strings_small};
ghost use Rattle.text.specs.Reading.{english};
ghost use Rattle.text.specs.Seen.{seen_string};

use crate::run::{Parts, Run};
use crate::segment::{Segments, front};
use octets::{after, byte_at};

#[derive(Clone, Copy)]
pub(crate) struct Spoken<'a> {
    pub language: &'a [u8],
    pub segments: Run<'a, Segments>,
}

impl<'a> Spoken<'a> {
    pub(crate) fn is_english(&self) -> bool
        ensures value { result ≡ english (seen_string self.now).language }
    {
        matches!(self.language, [b'e', b'n', b'g', ..])
    }
}

// The strings of a field.
#[derive(Clone, Copy)]
pub(crate) struct Strings;

impl<'a> Parts<'a> for Strings {
    type Part = Spoken<'a>;

    ghost Stated = { OneString };

    ghost stated = { seen_string };

    ghost at = { string_at };

    ghost size = { string_size };

    // 255 segments, and the four bytes before them
    ghost most = { 65794 };

    ghost small = { strings_small };

    fn read(bytes: &'a [u8]) -> Spoken<'a> {
        Spoken {
            language: front(bytes, 3),
            segments: Run::new(byte_at(bytes, 3), after(bytes, 4)),
        }
    }

    fn size_of(bytes: &'a [u8]) -> usize {
        4 + Run::<Segments>::new(byte_at(bytes, 3), after(bytes, 4)).size()
    }
}
