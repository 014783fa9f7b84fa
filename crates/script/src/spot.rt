// The numbers of a place, in their ranges or not.
ghost use Rattle.station.specs.Places.{MakesPlace};

use station::{Place, PlaceRefusal};

#[derive(Clone, Copy, PartialEq, Eq, Debug)]
pub struct Spot {
    pub state: u32,
    pub county: u32,
    pub part: u32,
}

impl Spot {
    // The place that the numbers name. A `TryFrom` beside this public name would say the same twice.
    pub fn place(self) -> Result<Place, PlaceRefusal>
        ensures cases { MakesPlace self.state self.county self.part result }
    {
        let state = u8::try_from(self.state).map_err(|_| PlaceRefusal::Range)?;
        let county = u16::try_from(self.county).map_err(|_| PlaceRefusal::Range)?;
        let part = u8::try_from(self.part).map_err(|_| PlaceRefusal::Range)?;
        Place::new(state, county, part)
    }
}
