// What every set does.
ghost use Rattle.std.specs.Prelude.{◌≡◌};
ghost use Rattle.sets.specs.Meaning.{Meaning, Lawful, count_of, service_at, owning, Tunes, Borrows, Captions};

use super::refusal::SetRefusal;
use station::Service;

pub trait Set {
    // what the set means, and what holds of that at all times
    ghost meaning: { Self → Meaning };

    ghost lawful: { (s : Self) → Lawful (meaning s) };

    // How many services the list has.
    fn count(&self) -> usize
        ensures value { result ≡ count_of (meaning self.now) };

    // The service of a number, none past the list.
    fn service(&self, number: usize) -> Option<Service>
        ensures value { result ≡ service_at (meaning self.now).services number };

    // The number of the service shown.
    fn shown(&self) -> usize
        ensures value { result ≡ (meaning self.now).shown };

    // Shows a service with its own sound.
    fn tune(&mut self, number: usize) -> Result<(), SetRefusal>
        ensures cases { Tunes (meaning self.old) number result (meaning self.new) };

    // Takes the sound of a service, under the picture that is shown.
    fn borrow(&mut self, number: usize) -> Result<(), SetRefusal>
        ensures cases { Borrows (meaning self.old) number result (meaning self.new) };

    // Returns to the picture's own sound.
    fn own(&mut self)
        ensures after { meaning self.new ≡ owning (meaning self.old) };

    // Replaces the caption.
    fn caption(&mut self, bytes: &[u8]) -> Result<(), SetRefusal>
        ensures cases { Captions (meaning self.old) bytes.now result (meaning self.new) };
}
