// A text of at most 1,024 bytes, held in place.
ghost use Rattle.std.specs.Prelude.{◌≡◌, ◌≤◌, [], length};
ghost use Rattle.text.specs.Filling.{Puts};
ghost use Rattle.text.specs.Said.{said};
ghost use Rattle.text.specs.Writing.{Written};

use crate::refusal::TextRefusal;
use octets::{Fixed, Full};

// The most bytes that a text has.
pub const LONGEST: usize = 1024;

#[derive(Clone, Copy)]
pub struct Text {
    bytes: Fixed<LONGEST>,
}

impl Text {
    // The text that says nothing.
    pub fn empty() -> Text
        ensures value { said result ≡ [] }
    {
        Text {
            bytes: Fixed::empty(),
        }
    }

    // What the text says.
    pub fn as_bytes(&self) -> &[u8]
        ensures value { result.now ≡ said self.now }
        ensures bound { length result.now ≤ 1024 }
    {
        self.bytes.as_bytes()
    }

    // Adds a part at the end if it fits whole.
    pub(crate) fn put(&mut self, part: &[u8]) -> Result<(), Full>
        ensures cases { Puts (said self.old) part.now result (said self.new) }
    {
        self.bytes.add(part)
    }

    // Writes the text to the front of `out`, if it fits whole.
    pub fn write(&self, out: &mut [u8]) -> Result<usize, TextRefusal>
        ensures cases { Written (said self.now) out.old result out.new }
    {
        let words = self.as_bytes();
        let n = words.len();
        if out.len() < n {
            return Err(TextRefusal::Short);
        }
        out[..n].copy_from_slice(words);
        Ok(n)
    }
}
