// A line as it was read, of any length.
ghost use Rattle.std.specs.Prelude.{◌≡◌, ◌≤◌, length, if◌then◌else◌, nat_le};
ghost use Rattle.lines.specs.Ends.{unreturned};
ghost use Rattle.lines.specs.Held.{OfLine, OfCountedLine};
ghost use Rattle.script.specs.Lines.{line_asks, room_for};

use crate::asked::Asked;
use crate::words::read_words;
use lines::{LineBuffer, hex_value, is_comment, whole_text};

// What the line asks for. The bytes of a section are then at the front of the room, if it is large enough.
pub fn read_line(line: &LineBuffer, room: &mut [u8]) -> Asked
    ensures value { OfCountedLine line.now (λ text. 9 ≤ line.now.most → result ≡ line_asks line.now.most text) }
    ensures after { OfLine line.now (λ text. room.new ≡ (if nat_le (length text) line.now.most then room_for room.old (unreturned text) result else room.old)) }
{
    if is_comment(line) {
        return Asked::Nothing;
    }
    if let Some(size) = hex_value(line, b"section=", room) {
        return Asked::Section(size);
    }
    if let Some(size) = hex_value(line, b"document=", room) {
        return Asked::Document(size);
    }
    whole_text(line).map_or(Asked::Unknown, read_words)
}
