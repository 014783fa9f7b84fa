// Which entries name which places and services, and which places there are.
use super::examples;
use super::tally::Tally;
use entries::{Tuned, excepts, naming_location};
use section::Section;
use station::{ChannelPair, Path, Place, Service, SourceId};
use std::io;
use std::io::Write;

fn service(source: u16, major: u16, minor: u16) -> Service {
    Service::unmarked(SourceId(source), ChannelPair { major, minor })
}

// As it is printed: 1 for what is named, 0 for what is not, else the number of a refusal.
fn code(named: Result<bool, u8>) -> u32 {
    named.map_or_else(u32::from, u32::from)
}

// The numbers of a state, a county and a part.
type Numbers = (u8, u16, u8);

// The place, else the number of its refusal.
fn place((state, county, part): Numbers) -> Result<Place, u8> {
    Place::new(state, county, part).map_err(|refusal| refusal.number())
}

// 0 for a place that is made, else the number of its refusal.
fn refusal_of(numbers: Numbers) -> u32 {
    code(place(numbers).map(|_| false))
}

fn named(entries: &[u8], numbers: Numbers) -> u32 {
    code(place(numbers).map(|place| naming_location(entries, &place).is_some()))
}

fn excepted(entries: &[u8], service: Service, path: Path) -> u32 {
    u32::from(excepts(entries, &Tuned { service, path }))
}

fn places<W: Write + Drop>(tally: &mut Tally<W>) -> io::Result<()> {
    tally.number("place 0-1-0", 51, refusal_of((0, 1, 0)))?;
    tally.number("place 1-1-0", 0, refusal_of((1, 1, 0)))?;
    tally.number("place 99-1-0", 0, refusal_of((99, 1, 0)))?;
    tally.number("place 100-1-0", 51, refusal_of((100, 1, 0)))?;
    tally.number("place 1-0-0", 51, refusal_of((1, 0, 0)))?;
    tally.number("place 1-999-0", 0, refusal_of((1, 999, 0)))?;
    tally.number("place 1-1000-0", 51, refusal_of((1, 1000, 0)))?;
    tally.number("place 1-1-9", 0, refusal_of((1, 1, 9)))?;
    tally.number("place 1-1-10", 51, refusal_of((1, 1, 10)))
}

fn counties<W: Write + Drop>(tally: &mut Tally<W>) -> io::Result<()> {
    let county = [0x06, 0x0C, 0x25];
    tally.number("06 0C 25 names 6-37-0", 1, named(&county, (6, 37, 0)))?;
    tally.number("06 0C 25 names 6-37-5", 1, named(&county, (6, 37, 5)))?;
    tally.number("06 0C 25 names 6-38-0", 0, named(&county, (6, 38, 0)))?;
    tally.number("06 0C 25 names 7-37-0", 0, named(&county, (7, 37, 0)))?;
    tally.number(
        "06 00 25 names 6-37-0",
        1,
        named(&[0x06, 0x00, 0x25], (6, 37, 0)),
    )?;
    let high = [0x06, 0x0D, 0x25];
    tally.number("06 0D 25 names 6-37-0", 0, named(&high, (6, 37, 0)))?;
    tally.number("06 0D 25 names 6-293-0", 1, named(&high, (6, 293, 0)))?;
    let part = [0x06, 0x5C, 0x25];
    tally.number("06 5C 25 names 6-37-5", 1, named(&part, (6, 37, 5)))?;
    tally.number("06 5C 25 names 6-37-0", 1, named(&part, (6, 37, 0)))?;
    tally.number("06 5C 25 names 6-37-4", 0, named(&part, (6, 37, 4)))
}

fn states<W: Write + Drop>(tally: &mut Tally<W>) -> io::Result<()> {
    let every = [0x00, 0x0C, 0x00];
    tally.number("00 0C 00 names 1-1-0", 1, named(&every, (1, 1, 0)))?;
    tally.number("00 0C 00 names 99-999-9", 1, named(&every, (99, 999, 9)))?;
    tally.number(
        "00 5C 25 names 7-1-4",
        1,
        named(&[0x00, 0x5C, 0x25], (7, 1, 4)),
    )?;
    let state = [0x06, 0x0C, 0x00];
    tally.number("06 0C 00 names 6-999-3", 1, named(&state, (6, 999, 3)))?;
    tally.number("06 0C 00 names 7-1-0", 0, named(&state, (7, 1, 0)))?;
    tally.number("00 0C names 1-1-0", 0, named(&[0x00, 0x0C], (1, 1, 0)))?;
    tally.number("no entry names 1-1-0", 0, named(&[], (1, 1, 0)))?;
    let two = [0x07, 0x0C, 0x01, 0x06, 0x0C, 0x25];
    tally.number("07 0C 01 06 0C 25 names 6-37-0", 1, named(&two, (6, 37, 0)))
}

fn channels<W: Write + Drop>(tally: &mut Tally<W>) -> io::Result<()> {
    let entry = [0xFF, 0xFC, 0x0C, 0xFC, 0x01];
    let both = service(64_513, 12, 1);
    tally.number(
        "FF FC 0C FC 01 names 12-1 in-band",
        1,
        excepted(&entry, both, Path::InBand),
    )?;
    tally.number(
        "FF FC 0C FC 01 names 12-1 out-of-band",
        0,
        excepted(&entry, both, Path::OutOfBand),
    )?;
    tally.number(
        "FF FC 0C FC 01 names 1-12 in-band",
        0,
        excepted(&entry, service(0, 1, 12), Path::InBand),
    )?;
    tally.number(
        "FF FC 0C FC 01 names no pair",
        0,
        excepted(&entry, service(5, 0, 0), Path::InBand),
    )?;
    let none = [0xFF, 0xFC, 0x00, 0xFC, 0x00];
    tally.number(
        "FF FC 00 FC 00 names no pair",
        0,
        excepted(&none, service(5, 0, 0), Path::InBand),
    )?;
    tally.number(
        "FF FC 00 FC 00 names 12-1",
        0,
        excepted(&none, both, Path::InBand),
    )?;
    let zero = [0x80, 0x00, 0x00, 0x00, 0x05];
    tally.number(
        "80 00 00 00 05 names 0-5 in-band",
        1,
        excepted(&zero, service(0, 0, 5), Path::InBand),
    )
}

fn sources<W: Write + Drop>(tally: &mut Tally<W>) -> io::Result<()> {
    let entry = [0x7F, 0xFF, 0xFF, 0x01, 0x00];
    let both = service(256, 1023, 256);
    tally.number(
        "7F FF FF 01 00 names 256 out-of-band",
        1,
        excepted(&entry, both, Path::OutOfBand),
    )?;
    tally.number(
        "7F FF FF 01 00 names 256 in-band",
        0,
        excepted(&entry, both, Path::InBand),
    )?;
    tally.number(
        "7F FF FF 01 00 names 1",
        0,
        excepted(&entry, service(1, 12, 1), Path::OutOfBand),
    )?;
    tally.number(
        "7F FF FF 01 00 names no source",
        0,
        excepted(&entry, service(0, 12, 1), Path::OutOfBand),
    )?;
    let none = [0x7F, 0xFF, 0xFF, 0x00, 0x00];
    tally.number(
        "7F FF FF 00 00 names no source",
        0,
        excepted(&none, service(0, 12, 1), Path::OutOfBand),
    )?;
    tally.number(
        "7F FF FF 01 names 256",
        0,
        excepted(&[0x7F, 0xFF, 0xFF, 0x01], both, Path::OutOfBand),
    )
}

fn named_by(bytes: &[u8], numbers: Numbers) -> u32 {
    code(place(numbers).and_then(|place| {
        Section::read(bytes)
            .naming_location(&place)
            .map(|entry| entry.is_some())
            .map_err(|refusal| refusal.number())
    }))
}

fn excepted_by(bytes: &[u8], tuned: &Tuned) -> u32 {
    code(
        Section::read(bytes)
            .excepts(tuned)
            .map_err(|refusal| refusal.number()),
    )
}

fn sections<W: Write + Drop>(tally: &mut Tally<W>) -> io::Result<()> {
    let tuned = Tuned {
        service: service(256, 12, 1),
        path: Path::InBand,
    };
    tally.number("HWW names 6-37-0", 1, named_by(&examples::HWW, (6, 37, 0)))?;
    tally.number("HWW names 7-37-0", 0, named_by(&examples::HWW, (7, 37, 0)))?;
    tally.number("HWW excepts 12-1", 0, excepted_by(&examples::HWW, &tuned))?;
    tally.number("nothing names 6-37-0", 10, named_by(&[], (6, 37, 0)))?;
    tally.number("nothing excepts 12-1", 10, excepted_by(&[], &tuned))
}

pub fn all<W: Write + Drop>(tally: &mut Tally<W>) -> io::Result<()> {
    places(tally)?;
    counties(tally)?;
    states(tally)?;
    channels(tally)?;
    sources(tally)?;
    sections(tally)
}
