// One record for a section.
use entries::{Exception, Location};
use records::Record;
use section::{Fields, Part, Section, SectionRefusal};
use std::alloc::AllocError;
use text::Text;

// Which section of the input it is, from 1, and how many bytes it has.
#[derive(Clone, Copy, PartialEq, Eq, Debug)]
pub struct Heading {
    pub number: u64,
    pub size: u64,
}

// What is printed of a section.
#[derive(Clone, Copy)]
struct Contents<'a> {
    fields: Fields,
    event_code: Part<'a>,
    locations: Part<'a>,
    exceptions: Part<'a>,
    descriptors: Part<'a>,
    nature: Text,
    text: Text,
}

fn contents_of<'a>(section: &Section<'a>) -> Result<Contents<'a>, SectionRefusal> {
    Ok(Contents {
        fields: section.fields()?,
        event_code: section.event_code()?,
        locations: section.locations()?,
        exceptions: section.exceptions()?,
        descriptors: section.descriptors()?,
        nature: section.nature_text()?,
        text: section.text()?,
    })
}

fn opening(out: &mut Record, heading: Heading) -> Result<(), AllocError> {
    out.field(b"section=", heading.number)?;
    out.field(b" bytes=", heading.size)
}

pub fn refused(
    out: &mut Record,
    heading: Heading,
    refusal: SectionRefusal,
) -> Result<(), AllocError> {
    opening(out, heading)?;
    out.field(b" refused=", refusal.number())?;
    out.text(b" ")?;
    out.text(refusal.cause().as_bytes())?;
    out.text(b"\n")
}

pub fn section(
    out: &mut Record,
    heading: Heading,
    section: &Section<'_>,
) -> Result<(), AllocError> {
    match contents_of(section) {
        Ok(contents) => taken(out, heading, &contents),
        Err(refusal) => refused(out, heading, refusal),
    }
}

// Each line begins with the line feed of the one before.
fn taken(out: &mut Record, heading: Heading, c: &Contents<'_>) -> Result<(), AllocError> {
    opening(out, heading)?;
    out.text(b" taken")?;
    identity(out, c)?;
    out.text(b"\n  nature=")?;
    out.text(c.nature.as_bytes())?;
    times(out, &c.fields)?;
    services(out, &c.fields)?;
    out.text(b"\n  text=")?;
    out.text(c.text.as_bytes())?;
    locations(out, c.locations.bytes)?;
    exceptions(out, c.exceptions.bytes)?;
    out.field(b"\n  descriptors=", c.descriptors.bytes.len())?;
    out.field(b" at=", c.descriptors.at)?;
    out.text(b"\n")
}

fn identity(out: &mut Record, c: &Contents<'_>) -> Result<(), AllocError> {
    out.field(b"\n  sequence=", c.fields.sequence.0)?;
    out.field(b"\n  event_id=", c.fields.event_id.0)?;
    out.text(b"\n  originator=")?;
    code(out, &c.fields.originator)?;
    out.text(b"\n  event_code=")?;
    code(out, c.event_code.bytes)?;
    out.field(b" at=", c.event_code.at)
}

fn times(out: &mut Record, fields: &Fields) -> Result<(), AllocError> {
    out.field(b"\n  seconds=", fields.seconds.0)?;
    out.field(b"\n  start=", fields.start.0)?;
    out.field(b"\n  duration=", fields.duration.0)?;
    out.field(b"\n  priority=", fields.priority.0)
}

fn services(out: &mut Record, fields: &Fields) -> Result<(), AllocError> {
    out.field(b"\n  details_source=", fields.details_source.0)?;
    out.field(b"\n  details_channel=", fields.details_channel.major)?;
    out.field(b"-", fields.details_channel.minor)?;
    out.field(b"\n  audio_source=", fields.audio_source.0)
}

// As text where every byte is a visible character, else in hexadecimal.
fn code(out: &mut Record, bytes: &[u8]) -> Result<(), AllocError> {
    if is_visible(bytes) {
        return out.text(bytes);
    }
    out.text(b"0x")?;
    for byte in bytes {
        out.hex_byte(*byte)?;
    }
    Ok(())
}

fn is_visible(bytes: &[u8]) -> bool {
    bytes.iter().all(u8::is_ascii_graphic)
}

fn locations(out: &mut Record, bytes: &[u8]) -> Result<(), AllocError> {
    let (entries, _) = bytes.as_chunks::<3>();
    for entry in entries {
        let location = Location::read(entry);
        out.field(b"\n  location=", location.state)?;
        out.field(b"-", location.county)?;
        out.field(b"-", location.part)?;
    }
    Ok(())
}

// As the locations, by fives: one function for both would need a closure for what it prints of an entry.
fn exceptions(out: &mut Record, bytes: &[u8]) -> Result<(), AllocError> {
    let (entries, _) = bytes.as_chunks::<5>();
    for entry in entries {
        exception(out, Exception::read(entry))?;
    }
    Ok(())
}

fn exception(out: &mut Record, entry: Exception) -> Result<(), AllocError> {
    match entry {
        Exception::Channel(pair) => {
            out.field(b"\n  exception=channel:", pair.major)?;
            out.field(b"-", pair.minor)
        }
        Exception::Source(id) => out.field(b"\n  exception=source:", id.0),
    }
}
