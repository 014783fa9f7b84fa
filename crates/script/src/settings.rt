// What the set-up lines settle besides the table of services, each at most once.
ghost use Rattle.std.specs.Prelude.{◌≡◌, Some, None, MatchOption};
ghost use Rattle.script.specs.Settled.{unsettled, settled};

use crate::asked::{SetKind, Setting};
use crate::spot::Spot;
use station::Path;

#[derive(Clone, Copy, PartialEq, Eq, Debug, Default)]
pub struct Settings {
    pub kind: Option<SetKind>,
    pub start: Option<u32>,
    pub spot: Option<Spot>,
    pub path: Option<Path>,
    pub clock: Option<u32>,
}

// What is given, unless something was given before.
fn once<T: Copy + Drop>(before: Option<T>, given: T) -> Option<T>
    ensures cases { MatchOption before (result ≡ Some given) (λ _. result ≡ None) }
{
    before.is_none().then_some(given)
}

impl Settings {
    // Before the first line.
    pub fn none() -> Settings
        ensures value { result ≡ unsettled }
    {
        Settings::default()
    }

    // With one setting more; none if its like was settled before. A service settles nothing here.
    pub fn with(self, setting: Setting) -> Option<Settings>
        ensures value { result ≡ settled self setting }
    {
        let mut settings = self;
        match setting {
            Setting::Service(_) => {}
            Setting::Set(given) => settings.kind = Some(once(self.kind, given)?),
            Setting::Start(given) => settings.start = Some(once(self.start, given)?),
            Setting::Place(given) => settings.spot = Some(once(self.spot, given)?),
            Setting::Path(given) => settings.path = Some(once(self.path, given)?),
            Setting::Clock(given) => settings.clock = Some(once(self.clock, given)?),
        }
        Some(settings)
    }
}
