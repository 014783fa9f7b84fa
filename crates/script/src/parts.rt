// The parts of a line.
ghost use Rattle.std.specs.Prelude.{◌≡◌, true, false, MatchOption};
ghost use Rattle.script.specs.Parts.{has_mark, before_mark, after_mark};

use memchr::memchr;

// What stands before and after the first mark, if there is one.
pub(crate) fn split_once(text: &[u8], mark: u8) -> Option<(&[u8], &[u8])>
    ensures cases { MatchOption result (has_mark mark text.now ≡ false) (λ p. (has_mark mark text.now ≡ true) × (p.0.now ≡ before_mark mark text.now) × (p.1.now ≡ after_mark mark text.now)) }
{
    let at = memchr(mark, text)?;
    Some((&text[..at], &text[at + 1..]))
}

// What stands before the first mark, all of it where there is none.
pub(crate) fn before(text: &[u8], mark: u8) -> &[u8]
    ensures value { result.now ≡ before_mark mark text.now }
{
    split_once(text, mark).map_or(text, |(before, _)| before)
}
