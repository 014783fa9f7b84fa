// What a receiver begins with, once the set-up is over.
ghost use Rattle.std.specs.Prelude.{◌≡◌};
ghost use Rattle.station.specs.Rules.{Gives};
ghost use Rattle.script.specs.declared.beginning.BeginRefusal.TheVariants.{Table, Place};
ghost use Rattle.script.specs.Begins.{begin_number, begin_refusal, kind_of, start_of, spot_of, BeginsWith};

use crate::asked::SetKind;
use crate::settings::Settings;
use crate::spot::Spot;
use sets::{ChannelMap, TableRefusal};
use station::{Outset, Path, PlaceRefusal, Service};

#[derive(Clone, Copy, PartialEq, Eq, Debug)]
pub struct Beginning {
    pub kind: SetKind,
    pub start: usize,
    pub outset: Outset,
}

// Why a receiver does not begin.
#[derive(Clone, Copy, PartialEq, Eq, Debug)]
pub enum BeginRefusal {
    Table(TableRefusal),
    Place(PlaceRefusal),
}

impl From<TableRefusal> for BeginRefusal {
    ghost from_gives = { λ refusal e. e ≡ Table refusal };

    fn from(refusal: TableRefusal) -> BeginRefusal {
        BeginRefusal::Table(refusal)
    }
}

impl From<PlaceRefusal> for BeginRefusal {
    ghost from_gives = { λ refusal e. e ≡ Place refusal };

    fn from(refusal: PlaceRefusal) -> BeginRefusal {
        BeginRefusal::Place(refusal)
    }
}

impl BeginRefusal {
    // The number of the refusal.
    pub fn number(self) -> u8
        ensures value { result ≡ begin_number self }
    {
        match self {
            BeginRefusal::Table(refusal) => refusal.number(),
            BeginRefusal::Place(refusal) => refusal.number(),
        }
    }
}

fn kind_of(settings: &Settings) -> SetKind
    ensures value { result ≡ kind_of settings.now }
{
    settings.kind.unwrap_or(SetKind::Bus)
}

fn start_of(settings: &Settings) -> u32
    ensures value { result ≡ start_of settings.now }
{
    settings.start.unwrap_or(0)
}

fn spot_of(settings: &Settings) -> Spot
    ensures value { result ≡ spot_of settings.now }
{
    settings.spot.unwrap_or(Spot {
        state: 6,
        county: 37,
        part: 0,
    })
}

// The table is tested first, since its refusals have the smaller numbers.
pub fn begin_with(settings: &Settings, services: &[Service]) -> Result<Beginning, BeginRefusal>
    ensures cases { Gives begin_number (begin_refusal settings.now services.now) (BeginsWith settings.now) result }
{
    let kind = kind_of(settings);
    // as in Rust there is no `From<u32>` for `usize`
    let start = start_of(settings) as usize;
    if let SetKind::Map = kind {
        ChannelMap::check(services, start)?;
    }
    Ok(Beginning {
        kind,
        start,
        outset: Outset {
            place: spot_of(settings).place()?,
            path: settings.path.unwrap_or(Path::InBand),
            clock: settings.clock.unwrap_or(0),
        },
    })
}
