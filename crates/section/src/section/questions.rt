// What can be asked of a section that was read.
ghost use Rattle.std.specs.Prelude.{◌≡◌, ℕ, ◌+◌, IfOk};
ghost use Rattle.std.specs.Option.{IfNone, option_map};
ghost use Rattle.station.specs.Rules.{Gives};
ghost use Rattle.section.specs.Origins.{memory_of, bytes_of};
ghost use Rattle.section.specs.Places.{nature_at, text_at, locations_at, exceptions_at, descriptors_at, event_code_of, nature_of, alert_of, locations_of, exceptions_of, descriptors_of};
ghost use Rattle.section.specs.Refusals.{number};
ghost use Rattle.section.specs.Rules.{refusal};
ghost use Rattle.section.specs.Parts.{Hands};
ghost use Rattle.section.specs.Whole.{IsWhole};

use super::super::bytes::part_at;
use super::super::laid::Laid;
use super::super::part::Part;
use super::super::refusal::SectionRefusal;
use super::Section;

impl<'a> Section<'a> {
    // The section with its layout, where it breaks no rule.
    pub(super) fn laid(&self) -> Result<Laid<'a>, SectionRefusal>
        ensures { Gives number (refusal (bytes_of self.now)) (λ l. l.bytes.now ≡ bytes_of self.now) result }
    {
        self.reading
    }

    // The first rule that the section breaks, if it breaks one.
    #[tactic(auto, using(crate::proofs::Wholes::whole))]
    pub fn refusal(&self) -> Option<SectionRefusal>
        ensures value { option_map number result ≡ refusal (bytes_of self.now) }
        ensures whole { IfNone result (IsWhole (bytes_of self.now)) }
    {
        self.laid().err()
    }

    // The event code: that very part of the section, from byte 15 on.
    pub fn event_code(&self) -> Result<Part<'a>, SectionRefusal>
        ensures value { Hands (bytes_of self.now) 15 (event_code_of (bytes_of self.now)) result }
        ensures same { IfOk result (λ p. p.bytes.ref_ptr ≡ ((memory_of self.now).ref_ptr.0, 15 + (memory_of self.now).ref_ptr.1)) }
    {
        let laid = self.laid()?;
        let end = laid.layout.event_code.end;
        Ok(Part {
            at: 15,
            bytes: &self.bytes[15..end],
        })
    }

    // The nature text as it stands in the section. This and the four below differ in the part alone: a function
    // over a closure that picks it would be no shorter, and say less.
    pub fn nature(&self) -> Result<Part<'a>, SectionRefusal>
        ensures { Hands (bytes_of self.now) (nature_at (bytes_of self.now) + 1) (nature_of (bytes_of self.now)) result }
    {
        let laid = self.laid()?;
        Ok(part_at(laid.bytes, laid.layout.nature))
    }

    // The alert text as it stands in the section.
    pub fn alert_text(&self) -> Result<Part<'a>, SectionRefusal>
        ensures { Hands (bytes_of self.now) (text_at (bytes_of self.now)) (alert_of (bytes_of self.now)) result }
    {
        let laid = self.laid()?;
        Ok(part_at(laid.bytes, laid.layout.alert))
    }

    // The location entries, 3 bytes each.
    pub fn locations(&self) -> Result<Part<'a>, SectionRefusal>
        ensures { Hands (bytes_of self.now) (locations_at (bytes_of self.now) + 1) (locations_of (bytes_of self.now)) result }
    {
        let laid = self.laid()?;
        Ok(part_at(laid.bytes, laid.layout.locations))
    }

    // The exception entries, 5 bytes each.
    pub fn exceptions(&self) -> Result<Part<'a>, SectionRefusal>
        ensures { Hands (bytes_of self.now) (exceptions_at (bytes_of self.now) + 1) (exceptions_of (bytes_of self.now)) result }
    {
        let laid = self.laid()?;
        Ok(part_at(laid.bytes, laid.layout.exceptions))
    }

    // The descriptor bytes.
    pub fn descriptors(&self) -> Result<Part<'a>, SectionRefusal>
        ensures { Hands (bytes_of self.now) (descriptors_at (bytes_of self.now) + 2) (descriptors_of (bytes_of self.now)) result }
    {
        let laid = self.laid()?;
        Ok(part_at(laid.bytes, laid.layout.descriptors))
    }
}
