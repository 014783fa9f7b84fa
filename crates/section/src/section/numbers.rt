// The numbers of a section that was read.
ghost use Rattle.std.specs.Prelude.{◌≡◌};
ghost use Rattle.station.specs.Rules.{Gives};
ghost use Rattle.section.specs.Origins.{bytes_of};
ghost use Rattle.section.specs.Refusals.{number};
ghost use Rattle.section.specs.Rules.{refusal};
ghost use Rattle.section.specs.Values.{fields_of};

use super::super::fields::Fields;
use super::super::refusal::SectionRefusal;
use super::Section;

impl<'a> Section<'a> {
    // Every number that the section states.
    pub fn fields(&self) -> Result<Fields, SectionRefusal>
        ensures { Gives number (refusal (bytes_of self.now)) (λ fields. fields ≡ fields_of (bytes_of self.now)) result }
    {
        let laid = self.laid()?;
        Ok(laid.decode())
    }
}

// The numbers of a section, or the first rule that it breaks.
pub fn read(bytes: &[u8]) -> Result<Fields, SectionRefusal>
    ensures { Gives number (refusal bytes.now) (λ fields. fields ≡ fields_of bytes.now) result }
{
    Section::read(bytes).fields()
}
