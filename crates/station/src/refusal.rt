// Why a place is refused.
ghost use Rattle.std.specs.Prelude.{◌≡◌, Some};
ghost use Rattle.station.specs.Refusals.{number as number_of, words};

use std::fmt;

#[derive(Clone, Copy, PartialEq, Eq, Debug)]
pub enum PlaceRefusal {
    // the state, the county or the part is out of its range
    Range,
}

impl PlaceRefusal {
    // The number of the refusal.
    pub fn number(self) -> u8
        ensures value { result ≡ number_of self }
    {
        match self {
            PlaceRefusal::Range => 51,
        }
    }

    // The cause in a few words.
    pub fn cause(self) -> &'static str
        ensures value { result.now ≡ words self }
    {
        match self {
            PlaceRefusal::Range => "place out of range",
        }
    }
}

// By hand: what a derive writes has no contract, and this text is proved.
impl fmt::Display for PlaceRefusal {
    ghost output = { λ e. Some (words e) };

    fn fmt<W: fmt::Write>(&self, f: &mut fmt::Formatter<W>) -> fmt::Result {
        f.write_str(self.cause())
    }
}
