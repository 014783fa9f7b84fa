// The document of a section, with that section's own text.
ghost use Rattle.std.specs.Prelude.{◌≤◌, length, take};
ghost use Rattle.document.specs.Lengths.{filled_length};
ghost use Rattle.rehearse.specs.Printed.{document_lines};
ghost use Rattle.rehearse.specs.Told.{Tells, TellsDocument};

use crate::printer::Printer;
use document::{Filled, Undelivered, deliver, hand_out};
use section::Section;

// A section has at most so many descriptor bytes, and the document in them is not longer.
const WORK: usize = 1023;

// Such a document with 1,024 bytes of text in it, each of which may become five.
const OUT: usize = 6143;

// The document that the buffer hands out.
fn show_document(printer: &mut Printer, filled: &Filled, out: &[u8])
    ensures { filled_length filled.now ≤ length out.now → Tells printer.old printer.new (document_lines (take (filled_length filled.now) out.now)) }
{
    match hand_out(filled, out) {
        Ok(document) => printer.document(document),
        Err(refusal) => printer.undelivered(&Undelivered::from(refusal)),
    }
}

pub fn deliver_document(printer: &mut Printer, bytes: &[u8])
    ensures { TellsDocument bytes.now printer.old printer.new }
{
    let section = Section::read(bytes);
    // A section that is refused has no text, and its document is refused first.
    let text = section.text().ok();
    let words = text.as_ref().map_or(&[][..], |text| text.as_bytes());
    let mut work = [0u8; WORK];
    let mut out = [0u8; OUT];
    match deliver(&section, words, &mut work, &mut out) {
        Ok(filled) => show_document(printer, &filled, &out),
        Err(refusal) => printer.undelivered(&refusal),
    }
}
