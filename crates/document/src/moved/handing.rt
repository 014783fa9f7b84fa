// Handing out a filled document.
ghost use Rattle.std.specs.Prelude.{ℕ, List};
ghost use Rattle.document.specs.Calls.{HandsOutOf};
ghost use Rattle.document.specs.Delivering.{HoldsFilled};
ghost use Rattle.document.specs.Handing.{HandsOut};

use super::Filled;
use crate::withheld::HandOutRefusal;

// Shows the filled document at the front of `out`, as often as wanted.
pub fn hand_out<'a>(filled: &Filled, out: &'a [u8]) -> Result<&'a [u8], HandOutRefusal>
    ensures cases { HandsOut filled.now out.now result }
    ensures document_of_the_section { (s words : List ℕ) → HoldsFilled s words filled.now out.now → HandsOutOf s words result }
{
    out.get(..filled.size).ok_or(HandOutRefusal::Short)
}
