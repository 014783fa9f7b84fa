// What a text field says in English.
ghost use Rattle.std.specs.Prelude.{◌≡◌, true, Some};
ghost use Rattle.std.specs.List.{find};
ghost use Rattle.std.specs.Option.{option_map};
ghost use Rattle.text.specs.Structure.{segments as the_segments, strings as the_strings};
ghost use Rattle.text.specs.Reading.{all_readable, characters, cut, english, read_of, text_of};
ghost use Rattle.text.specs.Said.{said, English};
ghost use Rattle.text.specs.Seen.{seen_string};
ghost use Rattle.text.specs.Writing.{WrittenEnglish};

use crate::characters::put_segments;
use crate::line::Text;
use crate::refusal::TextRefusal;
use crate::run::{Parts, Run};
use crate::segment::Segments;
use crate::spoken::{Spoken, Strings};
use crate::structure::{is_structured, strings_of};
use octets::after;

// Whether each segment can be read.
fn all_readable(mut segments: Run<'_, Segments>) -> bool
    ensures value { result ≡ all_readable (the_segments segments.entry.left segments.entry.rest.now) }
{
    segments.all(|segment| segment.is_readable())
}

// The text of segments that can be read.
fn spell(segments: Run<'_, Segments>) -> Text
    requires { all_readable (the_segments segments.left segments.rest.now) ≡ true }
    ensures value { said result ≡ cut 1024 (characters (the_segments segments.entry.left segments.entry.rest.now)) }
{
    let mut text = Text::empty();
    let _ = put_segments(&mut text, segments);
    text
}

// What a string says: nothing where it cannot be read.
fn text_of_string(string: Spoken<'_>) -> Text
    ensures value { said result ≡ cut 1024 (characters (read_of (Some (seen_string string.entry)))) }
{
    if all_readable(string.segments) {
        spell(string.segments)
    } else {
        Text::empty()
    }
}

// The first English one of them. Not by `find`: `next` comes to the end of each before it is tested, also of the one found.
fn first_english(strings: Run<'_, Strings>) -> Option<Spoken<'_>>
    ensures value { option_map seen_string result ≡ find (λ t. english t.language) (the_strings strings.entry.left strings.entry.rest.now) }
{
    let mut rest = strings.rest;
    for _ in 0..strings.left {
        let string = Strings::read(rest);
        if string.is_english() {
            return Some(string);
        }
        rest = after(rest, Strings::size_of(rest));
    }
    None
}

// The text of a field, as far as its bytes go.
fn text_of(field: &[u8]) -> Text
    ensures value { said result ≡ text_of field.now }
{
    match first_english(strings_of(field)) {
        Some(string) => text_of_string(string),
        None => Text::empty(),
    }
}

// The English text of a field that keeps the structure.
pub fn english(field: &[u8]) -> Result<Text, TextRefusal>
    ensures cases { English field.now result }
{
    if is_structured(field) {
        Ok(text_of(field))
    } else {
        Err(TextRefusal::Broken)
    }
}

// Writes the English text of a field to the front of `out`. A refusal leaves `out` as it was.
pub fn write_english(field: &[u8], out: &mut [u8]) -> Result<usize, TextRefusal>
    ensures cases { WrittenEnglish field.now out.old result out.new }
{
    english(field)?.write(out)
}

#[cfg(test)]
mod tests {
    use super::english;
    use std::test::Fail;

    #[test]
    fn says(rt: HostRuntime) -> Result<(), Fail> {
        let plain = english(&[1, 0x65, 0x6E, 0x67, 1, 0, 0, 2, 0x4F, 0x4B])?;
        assert_eq!(rt; plain.as_bytes(), &[0x4F, 0x4B][..]);
        let cyrillic = english(&[1, 0x65, 0x6E, 0x67, 1, 0, 4, 1, 0x10])?;
        assert_eq!(rt; cyrillic.as_bytes(), &[0xD0, 0x90][..]);
        Ok(())
    }
}
