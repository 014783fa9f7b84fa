// A service of the map: its channel pair, its source ID and its marks.
ghost use Rattle.std.specs.Prelude.{◌≡◌};
ghost use Rattle.lines.specs.Decimal.{parsed};
ghost use Rattle.script.specs.Services.{short, service_of};

use crate::marks::with_marks_after;
use crate::parts::{before, split_once};
use lines::parse_number;
use station::{ChannelPair, Service, SourceId};

// A number of 16 bits.
fn short_number(text: &[u8]) -> Option<u16>
    ensures value { result ≡ short (parsed text.now) }
{
    u16::try_from(parse_number(text)?).ok()
}

// MAJOR-MINOR,SOURCE and then the marks, each after a comma.
pub(crate) fn read_service(text: &[u8]) -> Option<Service>
    ensures value { result ≡ service_of text.now }
{
    let (major, rest) = split_once(text, b'-')?;
    let (minor, rest) = split_once(rest, b',')?;
    let (major, minor) = (short_number(major)?, short_number(minor)?);
    let source = SourceId(short_number(before(rest, b','))?);
    let service = Service::unmarked(source, ChannelPair { major, minor });
    with_marks_after(service, rest)
}
