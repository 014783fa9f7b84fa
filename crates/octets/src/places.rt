// Bytes and numbers at a place; past the end there are zeros.
ghost use Rattle.std.specs.Prelude.{◌≡◌, ◌+◌, ◌*◌, ◌%◌, drop, slice_index};

pub fn byte_at(bytes: &[u8], at: usize) -> u8
    ensures value { result ≡ slice_index bytes.now at }
{
    bytes.get(at).copied().unwrap_or(0)
}

// What follows the first `n` bytes.
pub fn after(bytes: &[u8], n: usize) -> &[u8]
    ensures value { result.now ≡ drop n bytes.now }
{
    bytes.get(n..).unwrap_or(&[])
}

// Two bytes as a number, the first highest.
pub fn word_at(bytes: &[u8], at: usize) -> u16
    ensures value { result ≡ slice_index bytes.now at * 256 + slice_index bytes.now (at + 1) }
{
    u16::from_be_bytes([byte_at(bytes, at), byte_at(bytes, at.saturating_add(1))])
}

// The low ten bits of the two bytes.
pub fn ten_bits(bytes: &[u8], at: usize) -> u16
    ensures value { result ≡ slice_index bytes.now at % 4 * 256 + slice_index bytes.now (at + 1) }
{
    u16::from_be_bytes([byte_at(bytes, at) % 4, byte_at(bytes, at.saturating_add(1))])
}
