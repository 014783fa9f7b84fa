// Fills and reads bytes in place.
ghost use Rattle.std.specs.Prelude.{◌≡◌, ◌≤◌, [], length};
ghost use Rattle.octets.specs.Held.{held, Adds, Replaces};

use super::{Fixed, Full};

impl<const MOST: usize> Fixed<MOST> {
    pub fn empty() -> Fixed<MOST>
        ensures value { held result ≡ [] }
    {
        Fixed {
            bytes: [0; MOST],
            len: 0,
        }
    }

    pub fn as_bytes(&self) -> &[u8]
        ensures value { result.now ≡ held self.now }
        ensures bound { length result.now ≤ MOST }
    {
        &self.bytes[..self.len]
    }

    // Adds a part at the end if it fits whole.
    pub fn add(&mut self, part: &[u8]) -> Result<(), Full>
        ensures cases { Adds MOST (held self.old) part.now result (held self.new) }
    {
        if part.len() > MOST - self.len {
            return Err(Full);
        }
        let end = self.len + part.len();
        let bytes = &mut self.bytes[..];
        bytes[self.len..end].copy_from_slice(part);
        self.len = end;
        Ok(())
    }

    // Puts other bytes in place of all of them if they fit.
    pub fn replace(&mut self, bytes: &[u8]) -> Result<(), Full>
        ensures cases { Replaces MOST (held self.old) bytes.now result (held self.new) }
    {
        if bytes.len() > MOST {
            return Err(Full);
        }
        self.len = 0;
        self.add(bytes)
    }
}

#[cfg(test)]
mod tests {
    use super::*;
    use std::test::Fail;

    #[test]
    fn holds(rt: HostRuntime) -> Result<(), Fail> {
        let mut words = Fixed::<4>::empty();
        assert_eq!(rt; words.add(b"abc"), Ok(()));
        assert_eq!(rt; words.add(b"de"), Err(Full));
        assert_eq!(rt; words.add(b"d"), Ok(()));
        assert_eq!(rt; words.as_bytes(), &b"abcd"[..]);
        assert_eq!(rt; words.replace(b"abcde"), Err(Full));
        assert_eq!(rt; words.replace(b"x"), Ok(()));
        assert_eq!(rt; words.as_bytes(), &b"x"[..]);
        Ok(())
    }
}
