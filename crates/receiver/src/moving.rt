// Moves a set from the picture of one sheet to that of the next.
ghost use Rattle.std.specs.Prelude.{◌≡◌, Decides};
ghost use Rattle.decision.specs.Pictures.{pictured};
ghost use Rattle.history.specs.Sheet.{Moves};
ghost use Rattle.receiver.specs.Pictures.{SameLook, SameWords};

use decision::{Picture, decide_picture, drive_set};
use history::State;
use sets::Set;

// Whether two pictures have one service and one sound.
fn looks_same(a: &Picture<'_>, b: &Picture<'_>) -> bool
    ensures value { Decides result (SameLook a.now b.now) }
{
    a.service == b.service && a.sound == b.sound
}

// Whether they have one caption.
fn reads_same(a: &Picture<'_>, b: &Picture<'_>) -> bool
    ensures value { Decides result (SameWords a.now b.now) }
{
    a.caption == b.caption
}

// Changes of the set what is not yet as the next sheet asks, and touches nothing where all is.
pub(crate) fn move_set<S: Set>(set: &mut S, from: &State, to: &State)
    ensures after { Moves (S.meaning set.old) from.now to.now (S.meaning set.new) }
    ensures same { pictured from.now.alert (S.meaning set.old).services from.now.home ≡ pictured to.now.alert (S.meaning set.old).services to.now.home → set.new ≡ set.old }
{
    let old = decide_picture(set, &from.alert, from.home);
    let new = decide_picture(set, &to.alert, to.home);
    if !looks_same(&old, &new) {
        let _ = drive_set(set, &new);
    } else if !reads_same(&old, &new) {
        let _ = set.caption(new.caption);
    }
}
