// The receiver: a sheet and the set that it owns. What its calls promise begins with any start and any history that
// it may have had, and is no invariant of it: the law relates all histories, and the receiver keeps none.
use history::State;
use sets::Set;

pub struct Receiver<S: Set> {
    state: State,
    set: S,
}

mod asking;
mod beginning;
mod calling;
mod turning;
