// Decimal numbers of 32 bits.
ghost use Rattle.std.specs.Prelude.{◌≡◌, ◌^◌, min};
ghost use Rattle.lines.specs.Decimal.{is_decimal, all_decimal, is_number, with_digit, number_of, parsed};

fn is_decimal(byte: u8) -> bool
    ensures value { result ≡ is_decimal byte }
{
    byte.is_ascii_digit()
}

fn all_decimal(text: &[u8]) -> bool
    ensures value { result ≡ all_decimal text.now }
{
    text.iter().all(|byte| is_decimal(*byte))
}

fn is_number(text: &[u8]) -> bool
    ensures value { result ≡ is_number text.now }
{
    match text {
        [] | [b'0', _, ..] => false,
        _ => all_decimal(text),
    }
}

const PAST: u64 = 1 << 32;

// One digit more, of a value that is cut off at 2^32 first: so no step overflows.
fn with_digit(value: u64, byte: u8) -> u64
    ensures value { result ≡ with_digit (min (2 ^ 32) value) byte }
{
    10 * PAST.min(value) + u64::from(byte.saturating_sub(b'0'))
}

// The value of the digits, or 2^32 where that is less.
// Not by `str::parse`: with the test for UTF-8 before it that takes twice the time on three digits.
fn value_within(text: &[u8]) -> u64
    ensures value { result ≡ min (2 ^ 32) (number_of text.now) }
{
    text.iter()
        .fold(0, |value, byte| with_digit(value, *byte))
        .min(PAST)
}

// The number that the text is: decimal digits with no zero in front of another, within 32 bits.
pub fn parse_number(text: &[u8]) -> Option<u32>
    ensures value { result ≡ parsed text.now }
{
    if !is_number(text) {
        return None;
    }
    u32::try_from(value_within(text)).ok()
}
