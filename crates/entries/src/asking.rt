// What is asked of a section's entries.
ghost use Rattle.std.specs.Prelude.{◌≡◌};
ghost use Rattle.entries.specs.Locations.{NamingLocation};
ghost use Rattle.entries.specs.Exceptions.{Excepts};

use super::entry::search;
use super::exceptions::Exception;
use super::locations::Location;
use super::tuned::Tuned;
use station::Place;

// The number of a location entry that names the place.
pub fn naming_location(entries: &[u8], place: &Place) -> Option<usize>
    ensures cases { NamingLocation entries.now place.now result }
{
    search::<Location>(entries, place)
}

// Whether an exception entry names the service on its path.
pub fn excepts(entries: &[u8], tuned: &Tuned) -> bool
    ensures cases { Excepts entries.now tuned.now result }
{
    search::<Exception>(entries, tuned).is_some()
}
