// Fills a buffer with a line, piece by piece.
ghost use Rattle.std.specs.Prelude.{◌≡◌, [], ◌++◌, MatchResult};
ghost use Rattle.lines.specs.Held.{Holds, OfLine, Takes};

use crate::buffer::{LineBuffer, Taken};
use crate::tail::Tail;
use memchr::memchr;
use std::alloc::{AllocError, Global};

impl LineBuffer {
    // Keeps the first `most` bytes of a line.
    pub fn new(heap: Global, most: usize) -> LineBuffer
        ensures value { (Holds result []) × (result.most ≡ most) }
    {
        LineBuffer {
            kept: Vec::new(heap),
            most,
            past: 0,
            tail: Tail::Digits,
        }
    }

    // Starts another line.
    pub fn clear(&mut self)
        ensures after { Holds self.new [] }
        ensures same { self.new.most ≡ self.old.most }
    {
        self.kept.clear();
        self.past = 0;
        self.tail = Tail::Digits;
    }

    // Goes on with the line by a piece of it.
    fn keep(&mut self, piece: &[u8]) -> Result<(), AllocError>
        ensures cases { MatchResult result (λ _. OfLine self.old (λ line. Holds self.new (line ++ piece.now))) (λ _. OfLine self.old (λ line. Holds self.new line)) }
        ensures same { self.new.most ≡ self.old.most }
    {
        let fits = piece.len().min(self.most - self.kept.len());
        let (first, over) = piece.split_at(fits);
        self.kept.extend_from_slice(first)?;
        // as in Rust there is no `From<usize>` for `u64`
        self.past = self.past.saturating_add(over.len() as u64);
        self.tail = self.tail.after_all(over);
        Ok(())
    }

    // Takes from what a reader holds up to and with the first line feed, or all of it.
    pub fn take(&mut self, held: &[u8]) -> Result<Taken, AllocError>
        ensures cases { Takes self.old self.new held.now result }
        ensures same { self.new.most ≡ self.old.most }
    {
        let (piece, count, ended) = match memchr(b'\n', held) {
            Some(end) => (&held[..end], end + 1, true),
            None => (held, held.len(), false),
        };
        self.keep(piece)?;
        Ok(Taken { count, ended })
    }
}
