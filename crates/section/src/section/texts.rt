// The texts of a section that was read.
ghost use Rattle.section.specs.Origins.{bytes_of};
ghost use Rattle.section.specs.Texts.{alert_text, nature_text, Says, Writes};

use super::super::refusal::{QuestionRefusal, SectionRefusal};
use super::Section;
use text::{Text, english};

impl<'a> Section<'a> {
    // The alert's text.
    pub fn text(&self) -> Result<Text, SectionRefusal>
        ensures { Says (bytes_of self.now) (alert_text (bytes_of self.now)) result }
    {
        let part = self.alert_text()?;
        // A section that breaks no rule has no broken text, so this refusal is never given.
        english(part.bytes).map_err(|_| SectionRefusal::Text)
    }

    // The nature of the event, in the same reading. Each names its own part, since that its field keeps the
    // structure is another fact for each.
    pub fn nature_text(&self) -> Result<Text, SectionRefusal>
        ensures { Says (bytes_of self.now) (nature_text (bytes_of self.now)) result }
    {
        let part = self.nature()?;
        english(part.bytes).map_err(|_| SectionRefusal::Text)
    }

    // Writes the alert's text to the front of `out`; a refusal leaves `out` as it was.
    pub fn write_text(&self, out: &mut [u8]) -> Result<usize, QuestionRefusal>
        ensures { Writes (bytes_of self.now) (alert_text (bytes_of self.now)) out.old result out.new }
    {
        let text = self.text()?;
        text.write(out).map_err(|_| QuestionRefusal::Short)
    }
}
