// The check register, eight bytes at a time by tables.
ghost use Rattle.std.specs.Prelude.{◌≡◌, ◌/◌, ◌%◌, ◌^◌, fold, slice_index};
ghost use Rattle.std.specs.Int.Bits.{bit_xor};
ghost use Rattle.checkword.specs.Register.{moves, entered, check_register};

use super::tables::{
    AFTER_8, AFTER_16, AFTER_24, AFTER_32, AFTER_40, AFTER_48, AFTER_56, AFTER_64,
};

// One byte goes in.
fn enter(register: u32, byte: u8) -> u32
    ensures { result ≡ entered register byte }
{
    let [top, ..] = register.to_be_bytes();
    (register << 8) ^ AFTER_8[usize::from(top ^ byte)]
}

// The four bytes of a register, highest first, each looked up in a table of its own.
fn through(x: u32, a: &[u32; 256], b: &[u32; 256], c: &[u32; 256], d: &[u32; 256]) -> u32
    ensures { result ≡ bit_xor (slice_index a.now (x / 2 ^ 24)) (bit_xor (slice_index b.now (x / 2 ^ 16 % 256)) (bit_xor (slice_index c.now (x / 2 ^ 8 % 256)) (slice_index d.now (x % 256)))) }
{
    let [first, second, third, fourth] = x.to_be_bytes();
    a[usize::from(first)]
        ^ (b[usize::from(second)] ^ (c[usize::from(third)] ^ d[usize::from(fourth)]))
}

// 32 bits leave.
fn through_four(x: u32) -> u32
    ensures { result ≡ moves 32 x }
{
    through(x, &AFTER_32, &AFTER_24, &AFTER_16, &AFTER_8)
}

// 64 bits leave.
fn through_eight(x: u32) -> u32
    ensures { result ≡ moves 64 x }
{
    through(x, &AFTER_64, &AFTER_56, &AFTER_48, &AFTER_40)
}

// Eight bytes go in: the first four with the register, the others after them.
fn enter_eight(register: u32, bytes: &[u8; 8]) -> u32
    ensures { result ≡ fold entered register bytes.now }
{
    let [a, b, c, d, e, f, g, h] = *bytes;
    let high = u32::from_be_bytes([a, b, c, d]);
    let low = u32::from_be_bytes([e, f, g, h]);
    through_eight(register ^ high) ^ through_four(low)
}

// The register after all the bytes; over a whole section with its check word it is 0.
pub fn check_word(bytes: &[u8]) -> u32
    ensures { result ≡ check_register bytes.now }
{
    let mut register = 0xFFFF_FFFF;
    let mut rest = bytes;
    while let Some((eight, others)) = rest.split_first_chunk::<8>() {
        register = enter_eight(register, eight);
        rest = others;
    }
    rest.iter()
        .fold(register, |register, byte| enter(register, *byte))
}
