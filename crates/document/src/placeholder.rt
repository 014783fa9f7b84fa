// The place where a document takes words, and the document written with words in it.
ghost use Rattle.std.specs.Prelude.{◌≡◌, ◌+◌, ◌≤◌, ◌++◌, length, take, drop, IfSome};
ghost use Rattle.document.specs.Escaping.{escape as escapeOf};
ghost use Rattle.document.specs.Placeholder.{First, Puts};

use crate::escape::{escaped_len, put, put_escaped};

const PLACEHOLDER: &[u8] = b"<AlertText></AlertText>";

// The first place where the placeholder stands.
fn find(document: &[u8]) -> Option<usize>
    ensures value { First document.now result }
    ensures bound { IfSome result (λ i. i + 23 ≤ length document.now) }
{
    document
        .windows(PLACEHOLDER.len())
        .position(|window| window == PLACEHOLDER)
}

// Writes the document with the words, escaped, after the eleven bytes of the opening tag at `at`.
fn put_filled(out: &mut [u8], document: &[u8], at: usize, words: &[u8])
    requires inside { at + 23 ≤ length document.now }
    requires room { length document.now + length (escapeOf words.now) ≤ length out.old }
    ensures after { out.new ≡ (take (at + 11) document.now ++ (escapeOf words.now ++ drop (at + 11) document.now)) ++ drop (length document.now + length (escapeOf words.now)) out.old }
{
    let (opened, rest) = document.split_at(at + 11);
    let here = put(out, 0, opened);
    let there = put_escaped(out, here, words);
    put(out, there, rest);
}

// Writes the document with the words in its first placeholder, if it fits; answers how long it is then.
pub(crate) fn put_document(document: &[u8], words: &[u8], out: &mut [u8]) -> Option<usize>
    requires { length words.now ≤ 1024 }
    ensures cases { Puts document.now words.now out.old result out.new }
{
    let size = document.len();
    match find(document) {
        None => {
            if out.len() < size {
                return None;
            }
            Some(put(out, 0, document))
        }
        Some(at) => {
            let more = escaped_len(words);
            if out.len() < size || out.len() - size < more {
                return None;
            }
            put_filled(out, document, at, words);
            Some(size + more)
        }
    }
}
