// One sheet after another.
ghost use Rattle.std.specs.Prelude.{◌≡◌};
ghost use Rattle.decision.specs.Pictures.{pictured};
ghost use Rattle.history.specs.Sheet.{Moves};

use super::Receiver;
use crate::moving::move_set;
use history::State;
use sets::Set;

impl<S: Set> Receiver<S> {
    // Moves the set to what the next sheet asks, and keeps that sheet.
    pub(super) fn turn_to(&mut self, next: State)
        ensures state { self.new.state ≡ next }
        ensures after { Moves (S.meaning self.old.set) self.old.state next (S.meaning self.new.set) }
        ensures same { pictured self.old.state.alert (S.meaning self.old.set).services self.old.state.home ≡ pictured next.alert (S.meaning self.old.set).services next.home → self.new.set ≡ self.old.set }
    {
        move_set(&mut self.set, &self.state, &next);
        self.state = next;
    }
}
