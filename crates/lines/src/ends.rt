// Where a line ends.
ghost use Rattle.std.specs.Prelude.{◌≡◌};
ghost use Rattle.lines.specs.Ends.{has_feed, unreturned};

use memchr::memchr;

// Whether there is a line feed among the bytes.
pub fn has_feed(bytes: &[u8]) -> bool
    ensures value { result ≡ has_feed bytes.now }
{
    memchr(b'\n', bytes).is_some()
}

// Without one carriage return at its end.
pub fn without_return(line: &[u8]) -> &[u8]
    ensures value { result.now ≡ unreturned line.now }
{
    line.strip_suffix(b"\r").unwrap_or(line)
}
