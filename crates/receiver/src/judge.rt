// What the sheet says to a section.
ghost use Rattle.std.specs.Prelude.{◌≡◌, Some, None, Ok, Err, Decides, MatchResult};
ghost use Rattle.section.specs.Origins.{bytes_of};
ghost use Rattle.section.specs.Values.{fields_of};
ghost use Rattle.history.specs.Sheet.{Judges};

use calls::Answer;
use history::State;
use section::{Section, SectionRefusal, SequenceNumber};

// A section's answer, and the sequence number to remember.
#[derive(Clone, Copy)]
pub(crate) struct Judged {
    pub(crate) answer: Answer,
    pub(crate) sequence: SequenceNumber,
}

// Whether the number is the one remembered.
fn is_repeat(last: Option<SequenceNumber>, sequence: SequenceNumber) -> bool
    ensures value { Decides result (last ≡ Some sequence) }
{
    last == Some(sequence)
}

// The first answer that fits, or the section's refusal.
pub(crate) fn judge(state: &State, section: &Section<'_>) -> Result<Judged, SectionRefusal>
    ensures cases { MatchResult result (λ j. Judges state.now (bytes_of section.now) (Ok j.answer) × (j.sequence ≡ (fields_of (bytes_of section.now)).sequence)) (λ e. Judges state.now (bytes_of section.now) (Err e)) }
{
    let fields = section.fields()?;
    let sequence = fields.sequence;
    if is_repeat(state.last, sequence) {
        return Ok(Judged {
            answer: Answer::Repeat,
            sequence,
        });
    }
    if fields.priority.0 == 0 {
        return Ok(Judged {
            answer: Answer::Test,
            sequence,
        });
    }
    let naming = section.naming_location(&state.place)?;
    Ok(Judged {
        answer: naming.map_or(Answer::Elsewhere, Answer::InForce),
        sequence,
    })
}
