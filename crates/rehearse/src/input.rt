// The lines of the script, one after another.
ghost use Rattle.std.specs.Prelude.{◌≡◌, ◌+◌, ◌-◌, ◌^◌, ◌≤◌, min, take, IfOk, IfSome};
ghost use Rattle.std.specs.Io.Buffered.{reader_buffer};
ghost use Rattle.lines.specs.Ends.{has_feed};
ghost use Rattle.lines.specs.Held.{OfCountedLine};
ghost use Rattle.script.specs.Lines.{line_asks};

use lines::{LineBuffer, value_in};
use script::{Asked, read_line};
use std::io;
use std::io::{BufReader, Stdin};

// Enough of a line for the longest section.
const MOST: usize = 16_384;

// One byte more than the longest section has, so that a longer one is seen to be longer.
const ROOM: usize = 4097;

#[derive(Drop)]
pub struct Input {
    reader: BufReader<Stdin>,
    line: LineBuffer,
    // which line it is, from 1
    number: u64,
    // the bytes of the line's section
    room: [u8; ROOM],
}

impl Input {
    pub fn new(rt: &HostRuntime) -> io::Result<Input>
        ensures { IfOk result (λ input. input.number ≡ 0) }
    {
        Ok(Input {
            reader: BufReader::new(rt.alloc(), rt.stdin())?,
            line: LineBuffer::new(rt.alloc(), MOST),
            number: 0,
            room: [0; ROOM],
        })
    }

    // Whether the next line is held, so that no read for it can wait.
    pub fn has_line(&self) -> bool
        ensures { result ≡ has_feed (reader_buffer self.now.reader) }
    {
        lines::has_feed(self.reader.buffer())
    }

    // What the next line asks for; none at the end of the script.
    pub fn next(&mut self) -> io::Result<Option<Asked>>
        ensures number { self.new.number ≡ min (2 ^ 64 - 1) (self.old.number + 1) }
        ensures asked { IfOk result (λ next. IfSome next (λ asked. OfCountedLine self.new.line (λ text. 9 ≤ self.new.line.most → asked ≡ line_asks self.new.line.most text))) }
    {
        self.number = self.number.saturating_add(1);
        if lines::next_line(&mut self.reader, &mut self.line)? {
            Ok(Some(read_line(&self.line, &mut self.room[..])))
        } else {
            Ok(None)
        }
    }

    pub fn number(&self) -> u64
        ensures { result ≡ self.now.number }
    {
        self.number
    }

    // A section of so many bytes. One that is too long is as long as the room, which is too long as well.
    pub fn section(&self, size: u64) -> &[u8]
        ensures { result.now ≡ take size self.now.room }
    {
        value_in(&self.room, size).unwrap_or(&self.room)
    }
}
