// Where a receiver stands: a state, a county of it, and a part of the county.
ghost use Rattle.std.specs.Prelude.{◌≤◌};

use super::refusal::PlaceRefusal;

// A part of 0 is not known, and agrees with every part: an option would ask for two tests where this is one.
#[derive(Clone, Copy, PartialEq, Eq, Debug)]
pub struct Place {
    pub state: u8,
    pub county: u16,
    pub part: u8,
    ghost first_state: { 1 ≤ state },
    ghost last_state: { state ≤ 99 },
    ghost first_county: { 1 ≤ county },
    ghost last_county: { county ≤ 999 },
    ghost last_part: { part ≤ 9 },
}

impl Place {
    ghost use Rattle.station.specs.Places.{MakesPlace};

    // No place is made of a number that is out of its range.
    pub fn new(state: u8, county: u16, part: u8) -> Result<Place, PlaceRefusal>
        ensures cases { MakesPlace state county part result }
    {
        if (1..=99).contains(&state) && (1..=999).contains(&county) && part <= 9 {
            Ok(Place {
                state,
                county,
                part,
            })
        } else {
            Err(PlaceRefusal::Range)
        }
    }
}
