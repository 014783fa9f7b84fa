// Words and keys of a line.
ghost use Rattle.std.specs.Prelude.{◌≡◌, true, false, length, drop, MatchOption};
ghost use Rattle.std.specs.Str.{bytes_eq};
ghost use Rattle.lines.specs.Keys.{begins};

// Whether the text is the word.
pub fn is_word(text: &[u8], word: &[u8]) -> bool
    ensures value { result ≡ bytes_eq text.now word.now }
{
    text == word
}

// What follows the key, if the text begins with it.
pub fn value_after<'a>(text: &'a [u8], key: &[u8]) -> Option<&'a [u8]>
    ensures cases { MatchOption result (begins key.now text.now ≡ false) (λ v. (begins key.now text.now ≡ true) × (v.now ≡ drop (length key.now) text.now)) }
{
    text.strip_prefix(key)
}
