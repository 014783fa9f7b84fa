// The three calls in turn: a section's document gathered, filled and handed out.
ghost use Rattle.std.specs.Prelude.{◌≡◌, length, IfOk};
ghost use Rattle.document.specs.Calls.{HandsOutWhenever};
ghost use Rattle.document.specs.Delivering.{HoldsFilled, Delivers, delivery_answer, GivesBack};
ghost use Rattle.document.specs.Gathers.{section_document, document_within, buffer_after};
ghost use Rattle.document.specs.Law.{AnswersForEachOrder};
ghost use Rattle.section.specs.Origins.{bytes_of};

use crate::moved::{Filled, fill, gather, hand_out};
use crate::undelivered::Undelivered;
use section::Section;

// Gathers the section's document into `work`, fills it into `out`, and sees that `out` hands it out. The answer holds
// no borrow of `out`, so that its contract can say what `out` holds: `hand_out` with it and `out` shows the document,
// as often as wanted.
pub fn deliver(
    section: &Section<'_>,
    words: &[u8],
    work: &mut [u8],
    out: &mut [u8],
) -> Result<Filled, Undelivered>
    ensures cases { Delivers (bytes_of section.now) words.now (length work.old) (length out.old) (delivery_answer result out.new) }
    ensures handed_out { IfOk result (λ f. HandsOutWhenever (bytes_of section.now) words.now f out.new) }
    ensures holds_the_document { IfOk result (λ f. HoldsFilled (bytes_of section.now) words.now f out.new) }
    ensures work_holds { work.new ≡ buffer_after (document_within (length work.old) (section_document (bytes_of section.now))) work.old }
    ensures out_holds { out.new ≡ buffer_after (delivery_answer result out.new) out.old }
    ensures gives_back { GivesBack (bytes_of section.now) result work.new }
    ensures order_of_descriptors_does_not_matter { AnswersForEachOrder (bytes_of section.now) words.now (length work.old) (length out.old) (delivery_answer result out.new) }
{
    let gathered = gather(section, work)?;
    let filled = fill(gathered, work, words, out)?;
    hand_out(&filled, out)?;
    Ok(filled)
}

#[cfg(test)]
mod tests {
    use super::deliver;
    use crate::moved::{fill, hand_out};
    use crate::undelivered::Undelivered;
    use section::Section;
    use std::test::Fail;

    // Carries the document <a><AlertText></AlertText></a>, the second half of it first.
    const SECTION: &[u8] = b"\xD8\xB0\x54\0\0\xCF\0\0\0\0\x10WXR\0\0\x3C\0\0\0\0\0\xF0\xFF\xFF\
        \0\0\xFC\x03\xFC\x01\0\0\0\0\x01\x06\x0C\x25\0\xFC\x29\x03\x12\x02\x10</AlertText></a>\
        A\x01\xFF\x03\x10\x01\x0E<a><AlertText>\x80\x7D\x7D\x39";

    // The same descriptors from the last to the first, with the check word of that.
    const TURNED: &[u8] = b"\xD8\xB0\x54\0\0\xCF\0\0\0\0\x10WXR\0\0\x3C\0\0\0\0\0\xF0\xFF\xFF\
        \0\0\xFC\x03\xFC\x01\0\0\0\0\x01\x06\x0C\x25\0\xFC\x29\x03\x10\x01\x0E<a><AlertText>\
        A\x01\xFF\x03\x12\x02\x10</AlertText></a>\xCE\xFE\x7D\x4B";

    const WORDS: &[u8] = b"Fire & <smoke>";

    const FILLED: &[u8] = b"<a><AlertText>Fire &amp; &lt;smoke&gt;</AlertText></a>";

    #[test]
    fn delivers_one_document_from_two_orders(rt: HostRuntime) -> Result<(), Fail> {
        for bytes in [SECTION, TURNED] {
            let (mut work, mut out) = ([0; 30], [7; 55]);
            let answer = deliver(&Section::read(bytes), WORDS, &mut work, &mut out);
            let filled = answer.ok().expect(&rt, "delivered");
            assert_eq!(rt; hand_out(&filled, &out), Ok(FILLED));
            assert_eq!(rt; out[54], 7);
        }
        Ok(())
    }

    #[test]
    fn gives_back_what_a_short_buffer_refuses(rt: HostRuntime) -> Result<(), Fail> {
        let (mut work, mut out) = ([0; 30], [7; 53]);
        let answer = deliver(&Section::read(SECTION), WORDS, &mut work, &mut out);
        let refused = answer.err().expect(&rt, "refused");
        assert_eq!(rt; refused.call(), "fill");
        assert_eq!(rt; refused.number(), 26);
        assert_eq!(rt; out, [7; 53]);
        if let Undelivered::Fill(unfilled) = refused {
            let mut longer = [0; 54];
            let filled = fill(unfilled.gathered, &work, WORDS, &mut longer);
            assert_eq!(rt; filled.is_ok(), true);
            assert_eq!(rt; &longer[..], FILLED);
        }
        Ok(())
    }
}
