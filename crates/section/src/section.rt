// A section that was read once: its layout, or the rule that it breaks.
ghost use Rattle.std.specs.Prelude.{◌≡◌, Some, None};
ghost use Rattle.std.specs.Result.{ForOk, ForErr};
ghost use Rattle.section.specs.Refusals.{number};
ghost use Rattle.section.specs.Rules.{refusal};

use super::check::check;
use super::laid::Laid;
use super::refusal::SectionRefusal;

#[derive(Clone, Copy)]
pub struct Section<'a> {
    bytes: &'a [u8],
    reading: Result<Laid<'a>, SectionRefusal>,
    ghost taken: { ForOk reading (λ l. (refusal bytes.now ≡ None) × (l.bytes.now ≡ bytes.now)) },
    ghost refused: { ForErr reading (λ e. refusal bytes.now ≡ Some (number e)) },
}

impl<'a> Section<'a> {
    ghost use Rattle.section.specs.Origins.{memory_of, bytes_of};

    // Tests every rule, the check word once among them; the questions go by what it found.
    pub fn read(bytes: &'a [u8]) -> Section<'a>
        ensures memory { memory_of result ≡ bytes.entry }
        ensures bytes { bytes_of result ≡ bytes.now }
    {
        Section {
            bytes,
            reading: check(bytes),
        }
    }
}

mod naming;
mod numbers;
mod questions;
mod texts;

pub use numbers::read;
