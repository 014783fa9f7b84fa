// The rules of a section, tested in their order.
ghost use Rattle.std.specs.Prelude.{◌≡◌};
ghost use Rattle.station.specs.Rules.{Gives};
ghost use Rattle.section.specs.Refusals.{number};
ghost use Rattle.section.specs.Rules.{sized, headed, checks, versioned, adds, spelled, broken};

use super::bytes::part_of;
use super::head::{Head, split_head};
use super::laid::Laid;
use super::refusal::SectionRefusal;
use super::walk::lay_out;
use checkword::check_word;
use text::is_structured;

impl<'a> Head<'a> {
    fn is_sized(&self) -> bool
        ensures value { result ≡ sized self.now.bytes.now }
    {
        (46..=4096).contains(&self.bytes.len())
            && usize::from(self.section_length) + 3 == self.bytes.len()
    }

    fn is_headed(&self) -> bool
        ensures value { result ≡ headed self.now.bytes.now }
    {
        self.table_id == 0xD8
            && self.syntax == 2
            && self.extension == 0
            && self.current == 1
            && self.section_number == 0
            && self.last_section_number == 0
    }

    fn is_checked(&self) -> bool
        ensures value { result ≡ checks self.now.bytes.now }
    {
        check_word(self.bytes) == 0
    }

    fn is_versioned(&self) -> bool
        ensures value { result ≡ versioned self.now.bytes.now }
    {
        self.protocol_version == 0
    }
}

impl<'a> Laid<'a> {
    // The stated lengths add up to the section.
    fn is_added(&self) -> bool
        ensures value { result ≡ adds self.now.bytes.now }
    {
        self.bytes.len().checked_sub(4) == Some(self.layout.descriptors.end)
    }

    fn is_spelled(&self) -> bool
        ensures value { result ≡ spelled self.now.bytes.now }
    {
        let nature = is_structured(part_of(self.bytes, self.layout.nature));
        let alert = is_structured(part_of(self.bytes, self.layout.alert));
        nature && alert
    }
}

// The layout of a section that breaks no rule, or the first rule that is broken.
pub(crate) fn check(bytes: &[u8]) -> Result<Laid<'_>, SectionRefusal>
    ensures cases { Gives number (broken bytes.now) (λ l. l.bytes.now ≡ bytes.now) result }
{
    let head = split_head(bytes).ok_or(SectionRefusal::Length)?;
    if !head.is_sized() {
        return Err(SectionRefusal::Length);
    }
    if !head.is_headed() {
        return Err(SectionRefusal::Head);
    }
    if !head.is_checked() {
        return Err(SectionRefusal::CheckWord);
    }
    if !head.is_versioned() {
        return Err(SectionRefusal::Version);
    }
    let laid = lay_out(&head);
    if !laid.is_added() {
        return Err(SectionRefusal::Layout);
    }
    if !laid.is_ranged() {
        return Err(SectionRefusal::Range);
    }
    if !laid.is_spelled() {
        return Err(SectionRefusal::Text);
    }
    Ok(laid)
}
