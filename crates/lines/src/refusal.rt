// Why a hexadecimal text is not decoded: the first that fits.
#[derive(Clone, Copy, PartialEq, Eq, Debug)]
pub enum HexRefusal {
    // a byte is no hexadecimal digit
    Digit,
    // the last digit has no partner
    Odd,
    // the bytes are more than there is room for
    Room,
}
