// Parts and escaped words put into a lent buffer.
ghost use Rattle.std.specs.Prelude.{◌≡◌, ◌+◌, ◌*◌, ◌≤◌, ◌++◌, length, take, drop};
ghost use Rattle.document.specs.Escaping.{escape as escapeOf, escaped};

use std::slice;

// A byte of the words as it stands in a document.
fn escaped(byte: &u8) -> &[u8]
    ensures value { result.now ≡ escaped byte.now }
{
    match char::from(*byte) {
        '&' => b"&amp;",
        '<' => b"&lt;",
        '>' => b"&gt;",
        _ => slice::from_ref(byte),
    }
}

// How many bytes the words become.
pub(crate) fn escaped_len(words: &[u8]) -> usize
    requires { length words.now ≤ 1024 }
    ensures value { result ≡ length (escapeOf words.now) }
    ensures bound { result ≤ 5 * length words.now }
{
    words.iter().map(|byte| escaped(byte).len()).sum()
}

// Writes a part from `at` on, and answers where it ends. The place is a number beside the buffer: a struct
// that held both would have to promise in each method that it still holds the same buffer.
pub(crate) fn put(out: &mut [u8], at: usize, part: &[u8]) -> usize
    requires { at + length part.now ≤ length out.old }
    ensures value { result ≡ at + length part.now }
    ensures after { out.new ≡ take at out.old ++ (part.now ++ drop (at + length part.now) out.old) }
{
    let end = at + part.len();
    out[at..end].copy_from_slice(part);
    end
}

// Writes the words, escaped, from `at` on, and answers where they end.
pub(crate) fn put_escaped(out: &mut [u8], mut at: usize, words: &[u8]) -> usize
    requires { at + length (escapeOf words.now) ≤ length out.old }
    ensures value { result ≡ at + length (escapeOf words.now) }
    ensures after { out.new ≡ take at out.old ++ (escapeOf words.now ++ drop (at + length (escapeOf words.now)) out.old) }
{
    for byte in words {
        at = put(out, at, escaped(byte));
    }
    at
}
