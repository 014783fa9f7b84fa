// Hexadecimal digits of a byte.
ghost use Rattle.std.specs.Prelude.{◌≡◌, ◌<◌};
ghost use Rattle.records.specs.Written.{digit, in_hex};

// `char::from_digit` writes small letters, `hex` and `format!` write capitals only into new memory, and `write!` of
// `{:02X}` promises nothing of a record for which memory runs out, where `hex_byte` promises that it stays as it was.
fn hex_digit(nibble: u8) -> u8
    requires { nibble < 16 }
    ensures { result ≡ digit nibble }
{
    if nibble < 10 {
        b'0' + nibble
    } else {
        b'A' - 10 + nibble
    }
}

pub(crate) fn in_hex(byte: u8) -> [u8; 2]
    ensures { result ≡ in_hex byte }
{
    [hex_digit(byte / 16), hex_digit(byte % 16)]
}
