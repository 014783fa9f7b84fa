// The head of a section, its first nine bytes, and the body after it.
ghost use Rattle.std.specs.Prelude.{◌≡◌, ◌+◌, ◌*◌, ◌/◌, ◌%◌, ◌<◌, ◌≤◌, length, drop, slice_index, MatchOption};
ghost use Rattle.section.specs.Places.{word};

use octets::{byte_at, word_at};

// The numbers of the head, the bytes that state them, and those that follow.
#[derive(Clone, Copy)]
pub struct Head<'a> {
    pub bytes: &'a [u8],
    pub table_id: u8,
    // the two bits above the length
    pub syntax: u8,
    pub section_length: u16,
    pub extension: u16,
    pub current: u8,
    pub section_number: u8,
    pub last_section_number: u8,
    pub protocol_version: u8,
    pub body: &'a [u8],
    ghost long: { 9 ≤ length bytes.now },
    ghost table: { table_id ≡ slice_index bytes.now 0 },
    ghost form: { syntax ≡ slice_index bytes.now 1 / 64 },
    ghost stated: { section_length ≡ (slice_index bytes.now 1 * 256 + slice_index bytes.now 2) % 4096 },
    ghost extended: { extension ≡ slice_index bytes.now 3 * 256 + slice_index bytes.now 4 },
    ghost currently: { current ≡ slice_index bytes.now 5 % 2 },
    ghost first: { section_number ≡ slice_index bytes.now 6 },
    ghost last: { last_section_number ≡ slice_index bytes.now 7 },
    ghost version: { protocol_version ≡ slice_index bytes.now 8 },
    ghost rest: { body.now ≡ drop 9 bytes.now },
}

impl<'a> Head<'a> {
    // The byte at a place of the section that is in the body.
    pub(crate) fn body_byte(&self, at: usize) -> u8
        requires { 9 ≤ at }
        ensures value { result ≡ slice_index self.now.bytes.now at }
    {
        byte_at(self.body, at - 9)
    }

    // Two bytes from there on as a number, the first highest.
    pub(crate) fn body_word(&self, at: usize) -> u16
        requires { 9 ≤ at }
        ensures value { result ≡ word self.now.bytes.now at }
    {
        word_at(self.body, at - 9)
    }
}

// The head and the body, where there are nine bytes.
pub(crate) fn split_head(bytes: &[u8]) -> Option<Head<'_>>
    ensures cases { MatchOption result (length bytes.now < 9) (λ h. h.bytes.now ≡ bytes.now) }
{
    // One pattern for the nine bytes and what follows them: by `split_first_chunk` they would be two.
    let [
        table_id,
        length_high,
        length_low,
        extension_high,
        extension_low,
        sequence_and_current,
        section_number,
        last_section_number,
        protocol_version,
        body @ ..,
    ] = bytes
    else {
        return None;
    };
    Some(Head {
        bytes,
        table_id: *table_id,
        syntax: *length_high / 64,
        section_length: u16::from_be_bytes([*length_high % 16, *length_low]),
        extension: u16::from_be_bytes([*extension_high, *extension_low]),
        current: *sequence_and_current % 2,
        section_number: *section_number,
        last_section_number: *last_section_number,
        protocol_version: *protocol_version,
        body,
    })
}
