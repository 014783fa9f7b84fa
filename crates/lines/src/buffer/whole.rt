// Whether a buffer holds all of its line, and whether anything of it has come.
ghost use Rattle.std.specs.Prelude.{◌≡◌, true, ◌&&◌, length, vec_len, ◌==◌, nat_le};
ghost use Rattle.lines.specs.Held.{OfLine};

use crate::buffer::LineBuffer;

impl LineBuffer {
    // Whether the kept bytes are all of the line.
    pub fn is_whole(&self) -> bool
        ensures value { result ≡ (self.now.past == 0) }
        ensures held { OfLine self.now (λ line. result ≡ nat_le (length line) self.now.most) }
        ensures all { OfLine self.now (λ line. result ≡ true → self.now.kept.items ≡ line) }
    {
        self.past == 0
    }

    // Whether nothing of a line has come.
    pub(crate) fn is_empty(&self) -> bool
        ensures value { result ≡ (vec_len self.now.kept == 0 && self.now.past == 0) }
        ensures held { OfLine self.now (λ line. result ≡ (length line == 0)) }
    {
        self.kept.is_empty() && self.is_whole()
    }
}
