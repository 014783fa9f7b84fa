// Location entries.
ghost use Rattle.std.specs.Prelude.{◌≡◌};
ghost use Rattle.entries.specs.Locations.{covers, location_of, names_place};
ghost use Rattle.entries.specs.Widths.{three_bytes};

use super::entry::Entry;
use octets::{byte_at, ten_bits};
use station::Place;

// What a location entry states; 0 stands for all states, all counties, all parts, as it is sent: an option would have to be
// made and taken apart wherever one is printed.
#[derive(Clone, Copy, PartialEq, Eq, Debug)]
pub struct Location {
    pub state: u8,
    pub part: u8,
    pub county: u16,
}

impl Location {
    // Of the entry at the front, past the bytes of zeros.
    pub fn read(entry: &[u8]) -> Location
        ensures value { result ≡ location_of entry.now }
    {
        Location {
            state: byte_at(entry, 0),
            part: byte_at(entry, 1) / 16,
            county: ten_bits(entry, 1),
        }
    }

    // Parts agree where they are equal or where either is 0.
    fn names(self, place: &Place) -> bool
        ensures value { result ≡ covers self place.now }
    {
        self.state == 0
            || self.state == place.state
                && (self.county == 0
                    || self.county == place.county
                        && (self.part == 0 || place.part == 0 || self.part == place.part))
    }
}

impl Entry for Location {
    type Thing = Place;

    ghost width = { 3 };

    ghost named = { names_place };

    ghost some = { three_bytes };

    fn size() -> usize {
        3
    }

    fn names(entry: &[u8], place: &Place) -> bool {
        Location::read(entry).names(place)
    }
}
