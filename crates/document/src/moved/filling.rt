// Filling a gathered document with an alert's words, and the filled document's length.
ghost use Rattle.std.specs.Prelude.{◌≡◌, ℕ, List, length};
ghost use Rattle.document.specs.Calls.{FillsOf};
ghost use Rattle.document.specs.Delivering.{Holds};
ghost use Rattle.document.specs.Filling.{Fills};
ghost use Rattle.document.specs.Lengths.{filled_length};

use super::{Filled, Gathered, Unfilled};
use crate::placeholder::put_document;
use crate::unfilled::FillRefusal;
use text::LONGEST;

impl Filled {
    // How many bytes the document has.
    pub fn len(&self) -> usize
        ensures value { result ≡ filled_length self.now }
    {
        self.size
    }
}

// Writes the gathered document with the words in its first placeholder to the front of `out`.
// A refusal leaves `out` as it was and gives the gathered document back.
pub fn fill(
    gathered: Gathered,
    work: &[u8],
    words: &[u8],
    out: &mut [u8],
) -> Result<Filled, Unfilled>
    ensures cases { Fills gathered work.now words.now out.old result out.new }
    ensures document_of_the_section { (s : List ℕ) → Holds s gathered work.now → FillsOf s work.now words.now (length out.old) result out.new }
{
    if words.len() > LONGEST {
        return Err(Unfilled {
            refusal: FillRefusal::Words,
            gathered,
        });
    }
    let size = gathered.size;
    if work.len() < size {
        return Err(Unfilled {
            refusal: FillRefusal::Short,
            gathered,
        });
    }
    put_document(&work[..size], words, out)
        .map(|size| Filled { size })
        .ok_or(Unfilled {
            refusal: FillRefusal::Short,
            gathered,
        })
}
