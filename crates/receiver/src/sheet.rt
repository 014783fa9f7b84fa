// What each call makes of the sheet.
ghost use Rattle.std.specs.Prelude.{◌≡◌, Decides};
ghost use Rattle.history.specs.Sheet.{noted, alerted, entered, Over, Advances, Selects};

use calls::{Answer, ChoiceRefusal, ReadingRefusal};
use decision::Alert;
use history::State;
use section::SequenceNumber;

fn with_sequence(state: &State, sequence: SequenceNumber) -> State
    ensures value { result ≡ noted state.now sequence }
{
    State {
        last: Some(sequence),
        ..*state
    }
}

// The alert replaces the one before it whole.
pub(crate) fn with_alert(state: &State, alert: Alert) -> State
    ensures value { result ≡ alerted state.now alert }
{
    State {
        alert: Some(alert),
        ..*state
    }
}

// After a section with the answer. A repeat changes nothing; a test and an alert for elsewhere are
// remembered by their number too.
pub(crate) fn after_answer(state: &State, answer: Answer, sequence: SequenceNumber) -> State
    ensures value { result ≡ entered state.now answer sequence }
{
    match answer {
        Answer::Repeat => *state,
        _ => with_sequence(state, sequence),
    }
}

// Whether the alert has come to its end at the reading.
fn is_over(alert: &Option<Alert>, seconds: u32) -> bool
    ensures value { Decides result (Over alert.now seconds) }
{
    let end = alert.as_ref().and_then(|alert| alert.end);
    end.is_some_and(|end| end <= u64::from(seconds))
}

// After a reading, which is refused if it is earlier than the clock.
pub(crate) fn after_reading(state: &State, seconds: u32) -> Result<State, ReadingRefusal>
    ensures cases { Advances state.now seconds result }
{
    if seconds < state.clock {
        return Err(ReadingRefusal::Earlier);
    }
    let alert = if is_over(&state.alert, seconds) {
        None
    } else {
        state.alert
    };
    Ok(State {
        clock: seconds,
        alert,
        ..*state
    })
}

// After a choice, which is refused past the list of so many services.
pub(crate) fn after_choice(
    state: &State,
    services: usize,
    number: usize,
) -> Result<State, ChoiceRefusal>
    ensures cases { Selects state.now services number result }
{
    if number >= services {
        return Err(ChoiceRefusal::PastTheList);
    }
    Ok(State {
        home: number,
        ..*state
    })
}
