// The characters of a segment: which code points it gives, and how they are put on a text.
ghost use Rattle.std.specs.Prelude.{◌≡◌, ◌+◌, ◌*◌, ◌≤◌, true, map};
ghost use Rattle.text.specs.Reading.{readable, all_readable, control, shown as shownAs, character, characters};
ghost use Rattle.text.specs.Said.{said};
ghost use Rattle.text.specs.Structure.{segments as the_segments};
ghost use Rattle.text.specs.Seen.{seen_segment};
ghost use Rattle.text.specs.Filling.{Puts, Fills, spelled};

use crate::line::Text;
use crate::run::Run;
use crate::segment::{Segment, Segments};
use octets::Full;

// A mode that can be read.
#[derive(Clone, Copy)]
struct Mode {
    number: u8,
    ghost low: { number ≤ 6 },
}

// Whether a code point is a control.
fn is_control(code: u16) -> bool
    ensures value { result ≡ control code }
{
    code <= 0x1F || (0x7F..=0x9F).contains(&code)
}

impl Mode {
    // The character of a byte; a control is shown as a space.
    fn code_point(self, byte: u8) -> char
        ensures value { result ≡ shownAs (256 * self.number + byte) }
    {
        let code = u16::from_be_bytes([self.number, byte]);
        if is_control(code) {
            return ' ';
        }
        char::from_u32(u32::from(code)).unwrap()
    }

    // Puts one character on the text, if it fits whole.
    fn put_character(self, text: &mut Text, byte: u8) -> Result<(), Full>
        ensures cases { Puts (said text.old) (character self.number byte) result (said text.new) }
    {
        let mut buffer = [0; 4];
        let encoded = self.code_point(byte).encode_utf8(&mut buffer);
        text.put(encoded.as_bytes())
    }

    // Puts the characters of the letters on the text, until one does not fit.
    fn put_letters(self, text: &mut Text, letters: &[u8]) -> Result<(), Full>
        ensures cases { Fills (said text.old) (map (character self.number) letters.now) result (said text.new) }
    {
        for byte in letters {
            self.put_character(text, *byte)?;
        }
        Ok(())
    }
}

// Puts the characters of the segment on the text, until one does not fit.
fn put_segment(text: &mut Text, segment: &Segment<'_>) -> Result<(), Full>
    requires { readable (seen_segment segment.now) ≡ true }
    ensures cases { Fills (said text.old) (spelled (seen_segment segment.now)) result (said text.new) }
{
    let mode = Mode {
        number: segment.mode,
    };
    mode.put_letters(text, segment.letters)
}

// The same of segments that can all be read.
pub(crate) fn put_segments(text: &mut Text, segments: Run<'_, Segments>) -> Result<(), Full>
    requires { all_readable (the_segments segments.left segments.rest.now) ≡ true }
    ensures cases { Fills (said text.old) (characters (the_segments segments.entry.left segments.entry.rest.now)) result (said text.new) }
{
    for segment in segments {
        put_segment(text, &segment)?;
    }
    Ok(())
}
