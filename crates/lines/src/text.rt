// What a line says that is kept whole, and whether a line is a comment.
ghost use Rattle.std.specs.Prelude.{◌≡◌, ◌<◌, true, false, length, MatchOption, nat_le};
ghost use Rattle.lines.specs.Ends.{unreturned, is_comment};
ghost use Rattle.lines.specs.Held.{OfLine};

use crate::buffer::LineBuffer;
use crate::ends::without_return;

// The line without a carriage return at its end, if it is kept whole.
pub fn whole_text(line: &LineBuffer) -> Option<&[u8]>
    ensures cases { MatchOption result (OfLine line.now (λ text. nat_le (length text) line.now.most ≡ false)) (λ t. OfLine line.now (λ text. (nat_le (length text) line.now.most ≡ true) × (t.now ≡ unreturned text))) }
{
    line.is_whole().then_some(without_return(line.bytes()))
}

// Whether a text is empty or begins with a hash.
fn says_nothing(text: &[u8]) -> bool
    ensures value { result ≡ is_comment text.now }
{
    matches!(text, [] | [b'#', ..])
}

// The same of a line.
#[tactic(auto, using(crate::proofs::Tailing::comment_in_first))]
pub fn is_comment(line: &LineBuffer) -> bool
    ensures value { OfLine line.now (λ text. 0 < line.now.most → result ≡ is_comment (unreturned text)) }
{
    says_nothing(whole_text(line).unwrap_or(line.bytes()))
}
