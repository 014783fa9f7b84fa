// What a line of input asks for.
ghost use Rattle.std.specs.Prelude.{◌≡◌, ◌≤◌};
ghost use Rattle.lines.specs.Ends.{unreturned};
ghost use Rattle.lines.specs.Held.{OfLine, OfCountedLine};
ghost use Rattle.sectiondump.specs.Asks.{line_asks, room_after};

use lines::{LineBuffer, hex_value, is_comment};

// No well-formed section is longer.
pub const ROOM: usize = 4096;

#[derive(Clone, Copy, PartialEq, Eq, Debug)]
pub enum Asked {
    // an empty line or a comment
    Nothing,
    // a section of so many bytes, in the room if it is large enough: a number, since it may be longer than that
    Section(u64),
    Unknown,
}

// What the line asks for. The bytes of a section are then at the front of the room, if it is large enough.
pub fn read(line: &LineBuffer, room: &mut [u8]) -> Asked
    ensures value { OfCountedLine line.now (λ text. 8 ≤ line.now.most → result ≡ line_asks (unreturned text)) }
    ensures after { OfLine line.now (λ text. room.new ≡ room_after line.now.most room.old text result) }
{
    if is_comment(line) {
        return Asked::Nothing;
    }
    hex_value(line, b"section=", room).map_or(Asked::Unknown, Asked::Section)
}
