// A receiver begins.
ghost use Rattle.std.specs.Prelude.{◌≡◌, []};
ghost use Rattle.history.specs.Law.{Law};
ghost use Rattle.receiver.specs.Stood.{began, Stood};
ghost use Rattle.sets.specs.Meaning.{plain};

use super::Receiver;
use history::State;
use sets::Set;
use station::Outset;

// The picture's own sound and an empty caption.
fn quiet<S: Set>(set: &mut S)
    ensures after { S.meaning set.new ≡ plain (S.meaning set.old).services (S.meaning set.old).shown }
{
    set.own();
    let _ = set.caption(&[]);
}

impl<S: Set> Receiver<S> {
    // Takes the set as it is found, gives it its own sound and an empty caption, and makes the service
    // shown the viewer's.
    pub fn begin(set: S, outset: Outset) -> Receiver<S>
        ensures stands { Stood S.meaning (began outset (S.meaning set)) [] result }
        ensures the_set_shows_what_the_calls_ask { Law (began outset (S.meaning set)) [] (S.meaning result.set) }
    {
        let mut set = set;
        quiet(&mut set);
        let Outset { place, path, clock } = outset;
        let state = State {
            place,
            path,
            clock,
            home: set.shown(),
            last: None,
            alert: None,
        };
        Receiver { state, set }
    }
}
