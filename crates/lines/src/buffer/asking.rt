// The parts that a buffer holds of its line.
ghost use Rattle.std.specs.Prelude.{◌≡◌, ◌-◌, ◌^◌, min, length, take, drop};
ghost use Rattle.lines.specs.Held.{OfLine};
ghost use Rattle.lines.specs.Tails.{tail_of};

use crate::buffer::LineBuffer;
use crate::tail::Tail;

impl LineBuffer {
    // The kept bytes, the first of the line.
    pub fn bytes(&self) -> &[u8]
        ensures value { result.now ≡ self.now.kept.items }
        ensures held { OfLine self.now (λ line. result.now ≡ take self.now.most line) }
    {
        self.kept.as_slice()
    }

    // How many bytes came past the kept ones.
    pub fn past(&self) -> u64
        ensures value { result ≡ self.now.past }
        ensures held { OfLine self.now (λ line. result ≡ min (2 ^ 64 - 1) (length line - self.now.most)) }
    {
        self.past
    }

    // What they are.
    pub fn tail(&self) -> Tail
        ensures value { result ≡ self.now.tail }
        ensures held { OfLine self.now (λ line. result ≡ tail_of (drop self.now.most line)) }
    {
        self.tail
    }
}
