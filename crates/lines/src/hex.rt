// Hexadecimal digits, and the bytes that pairs of them stand for.
ghost use Rattle.std.specs.Prelude.{◌≡◌, ◌+◌, ◌*◌, ◌/◌, ◌%◌, ◌≤◌, true, ◌++◌, length, drop, if◌then◌else◌, MatchResult};
ghost use Rattle.lines.specs.Hex.{is_digit, worth, all_digits, decoded, outcome};

use crate::refusal::HexRefusal;

// What a byte is worth as a digit: 15 at most, and 255 where it is none.
fn worth(byte: u8) -> u8
    ensures value { result ≡ (if is_digit byte then worth byte else 255) }
{
    match byte {
        b'0'..=b'9' => byte - b'0',
        b'A'..=b'F' => byte - b'A' + 10,
        b'a'..=b'f' => byte - b'a' + 10,
        _ => 255,
    }
}

// Not by `all` and `is_ascii_hexdigit`: that takes 0.84 s for 20,000 lines of 4,096-byte sections, where one test of all worths or-ed takes 0.16 s.
pub fn all_digits(text: &[u8]) -> bool
    ensures value { result ≡ all_digits text.now }
{
    text.iter().fold(0, |seen, byte| seen | worth(*byte)) < 16
}

fn pair(high: u8, low: u8) -> u8
    requires high { is_digit high ≡ true }
    requires low { is_digit low ≡ true }
    ensures value { result ≡ 16 * worth high + worth low }
{
    16 * worth(high) + worth(low)
}

fn put_pairs(text: &[u8], room: &mut [u8])
    requires digits { all_digits text.now ≡ true }
    requires even { length text.now % 2 ≡ 0 }
    requires fits { length text.now / 2 ≤ length room.old }
    ensures after { room.new ≡ decoded text.now ++ drop (length text.now / 2) room.old }
{
    // by index: of a room zipped by `iter_mut` a proof knows nothing after the loop
    for (i, [high, low]) in text.as_chunks::<2>().0.iter().enumerate() {
        room[i] = pair(*high, *low);
    }
}

// The bytes that `text` stands for, at the front of `room`: how many they are.
// Not by `hex::decode_to_slice`: that finds an odd length before a wrong digit, wants a room of just that length, and may change it before a wrong digit.
pub fn decode(text: &[u8], room: &mut [u8]) -> Result<usize, HexRefusal>
    ensures value { result ≡ outcome text.now (length room.old) }
    ensures after { MatchResult result (λ n. room.new ≡ decoded text.now ++ drop n room.old) (λ _. room.new ≡ room.old) }
{
    if !all_digits(text) {
        return Err(HexRefusal::Digit);
    }
    if text.len() % 2 != 0 {
        return Err(HexRefusal::Odd);
    }
    let pairs = text.len() / 2;
    if pairs > room.len() {
        return Err(HexRefusal::Room);
    }
    put_pairs(text, room);
    Ok(pairs)
}
