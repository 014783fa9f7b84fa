// Hexadecimal digits after a key, on a line of any length.
ghost use Rattle.std.specs.Prelude.{◌≡◌, ℕ, ◌<◌, ◌≤◌, length, take, drop, if◌then◌else◌, nat_le, MatchOption};
ghost use Rattle.lines.specs.Ends.{unreturned};
ghost use Rattle.lines.specs.Held.{OfLine, OfCountedLine};
ghost use Rattle.lines.specs.Keys.{after as reading, paired, pairs, put_into};
ghost use Rattle.lines.specs.Tails.{digits_past};

use crate::buffer::LineBuffer;
use crate::ends::without_return;
use crate::hex::{all_digits, decode};
use crate::keys::value_after;
use crate::refusal::HexRefusal;
use crate::tail::Tail;

// How many of the bytes past the kept ones are digits, if nothing else stands there but a carriage return at the end.
fn past_digits(tail: Tail, past: u64) -> Option<u64>
    ensures value { result ≡ digits_past tail past }
{
    match tail {
        Tail::Digits => Some(past),
        Tail::Returned => Some(past.saturating_sub(1)),
        Tail::Other => None,
    }
}

// How many bytes pairs of digits stand for.
fn pair_up(all: bool, digits: u64) -> Option<u64>
    ensures value { result ≡ paired all digits }
{
    (all && digits % 2 == 0).then_some(digits / 2)
}

// How many bytes the digits stand for of which only the first are kept.
fn long_size(kept: &[u8], line: &LineBuffer) -> Option<u64>
    ensures value { OfCountedLine line.now (λ text. (n : ℕ) → line.now.most < length text → n ≤ line.now.most → kept.now ≡ drop n (take line.now.most text) → result ≡ pairs (drop n (unreturned text))) }
{
    let past = past_digits(line.tail(), line.past())?;
    // here and below: as in Rust there is no `From<usize>` for `u64`
    let digits = past.checked_add(kept.len() as u64)?;
    pair_up(all_digits(kept), digits)
}

// The same where all are kept, with the bytes at the front of the room if it is large enough.
fn whole_size(digits: &[u8], room: &mut [u8]) -> Option<u64>
    ensures value { result ≡ pairs digits.now }
    ensures after { room.new ≡ put_into room.old digits.now result }
{
    match decode(digits, room) {
        Ok(n) => Some(n as u64),
        Err(HexRefusal::Room) => Some(digits.len() as u64 / 2),
        Err(HexRefusal::Digit | HexRefusal::Odd) => None,
    }
}

// How many bytes the line states after the key, if it is the key and pairs of digits. Where the line is kept whole
// and there is room for them, the bytes are at the front of the room; else the room is as it was.
pub fn hex_value(line: &LineBuffer, key: &[u8], room: &mut [u8]) -> Option<u64>
    ensures value { OfCountedLine line.now (λ text. length key.now ≤ line.now.most → result ≡ reading key.now pairs (unreturned text)) }
    ensures after { OfLine line.now (λ text. room.new ≡ (if nat_le (length text) line.now.most then put_into room.old (drop (length key.now) (unreturned text)) result else room.old)) }
{
    if line.is_whole() {
        whole_size(value_after(without_return(line.bytes()), key)?, room)
    } else {
        long_size(value_after(line.bytes(), key)?, line)
    }
}

// The bytes of a value of so many that stand at the front of the room; none where the room is smaller.
pub fn value_in(room: &[u8], size: u64) -> Option<&[u8]>
    ensures cases { MatchOption result (length room.now < size) (λ bytes. (size ≤ length room.now) × (bytes.now ≡ take size room.now)) }
{
    room.get(..usize::try_from(size).ok()?)
}
