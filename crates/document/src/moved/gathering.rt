// Gathering a document from a section's descriptors, and the gathered document's length.
ghost use Rattle.std.specs.Prelude.{◌≡◌, ℕ, ◌≤◌, List, length};
ghost use Rattle.document.specs.Calls.{GathersOf};
ghost use Rattle.document.specs.Carrying.{DocumentIsItsFragments};
ghost use Rattle.document.specs.Document.{document_of};
ghost use Rattle.document.specs.Gathers.{section_document, Gathers};
ghost use Rattle.document.specs.Lengths.{gathered_length};
ghost use Rattle.document.specs.Rearranging.{Rearranged};
ghost use Rattle.section.specs.Origins.{bytes_of};

use super::Gathered;
use crate::binding::{total, write};
use crate::refusal::DocumentRefusal;
use crate::slots::Gathering;
use crate::walk::walk;
use section::Section;

impl Gathered {
    // How many bytes the document has.
    pub fn len(&self) -> usize
        ensures value { result ≡ gathered_length self.now }
    {
        self.size
    }
}

// Gathers from the descriptor bytes, lent as a part of the section.
fn gather_part(area: &[u8], work: &mut [u8]) -> Result<Gathered, DocumentRefusal>
    requires { length area.now ≤ 1023 }
    ensures cases { Gathers (document_of area.now) work.old result work.new }
{
    let mut gathering = Gathering::new();
    walk(area, &mut gathering).ok_or(DocumentRefusal::Unended)?;
    let slots = gathering.bound()?;
    let size = total(slots);
    if work.len() < size {
        return Err(DocumentRefusal::Short);
    }
    write(area, slots, work);
    Ok(Gathered { size })
}

// Writes the document of the section to the front of `work`. A refusal leaves `work` as it was.
pub fn gather(section: &Section<'_>, work: &mut [u8]) -> Result<Gathered, DocumentRefusal>
    ensures cases { Gathers (section_document (bytes_of section.now)) work.old result work.new }
    ensures document_of_the_section { GathersOf (bytes_of section.now) (length work.old) result work.new }
    ensures document_is_its_fragments { DocumentIsItsFragments }
    ensures order_of_descriptors_does_not_matter { (t : List ℕ) → Rearranged (bytes_of section.now) t → Gathers (section_document t) work.old result work.new }
{
    let part = section.descriptors()?;
    gather_part(part.bytes, work)
}
