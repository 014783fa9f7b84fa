// A record that is put together piece by piece.
ghost use Rattle.std.specs.Prelude.{◌≡◌, ℕ, List, []};
ghost use Rattle.records.specs.Written.{Adds, AddsKeyed, in_hex};

use super::hex::in_hex;
use itoa::{Buffer, Integer};
use std::alloc::{AllocError, Global};
use std::marker::Model;

#[derive(Drop)]
pub struct Record {
    held: Vec<u8>,
}

// A record is seen as its bytes.
impl Model for Record {
    ghost Value = { List ℕ };

    ghost view = { λ r. r.held.items };
}

impl Record {
    pub fn new(heap: Global) -> Record
        ensures { result ≡ [] }
    {
        Record {
            held: Vec::new(heap),
        }
    }

    pub fn bytes(&self) -> &[u8]
        ensures { result.now ≡ self.now }
    {
        self.held.as_slice()
    }

    pub fn clear(&mut self)
        ensures { self.new ≡ [] }
    {
        self.held.clear();
    }

    pub fn text(&mut self, part: &[u8]) -> Result<(), AllocError>
        ensures { Adds self.old part.now result self.new }
    {
        self.held.extend_from_slice(part)
    }

    // In decimal.
    pub fn number<I: Integer>(&mut self, n: I) -> Result<(), AllocError>
        ensures { Adds self.old (I.text n) result self.new }
    {
        self.held
            .extend_from_slice(Buffer::new().format(n).as_bytes())
    }

    // A key and a number in decimal. Without memory for the number, the key alone may be held.
    pub fn field<I: Integer>(&mut self, key: &[u8], n: I) -> Result<(), AllocError>
        ensures { AddsKeyed self.old key.now (I.text n) result self.new }
    {
        self.text(key)?;
        self.number(n)
    }

    // In hexadecimal capitals.
    pub fn hex_byte(&mut self, byte: u8) -> Result<(), AllocError>
        ensures { Adds self.old (in_hex byte) result self.new }
    {
        self.held.extend_from_slice(&in_hex(byte))
    }
}

#[cfg(test)]
mod tests {
    use super::*;
    use std::test::Fail;

    #[test]
    fn puts_a_field(rt: HostRuntime) -> Result<(), Fail> {
        let mut record = Record::new(rt.alloc());
        record.field(b"home=", 27)?;
        assert_eq!(rt; record.bytes(), &b"home=27"[..]);
        Ok(())
    }
}
