// Where the parts stand, from the lengths that a section states.
ghost use Rattle.std.specs.Prelude.{◌≡◌, ◌+◌, ◌*◌, ◌^◌, ◌<◌, ◌≤◌};
ghost use Rattle.section.specs.Places.{after};

use super::head::Head;
use super::laid::Laid;
use super::layout::{Layout, Span};

// The place after a count at `at`, which the body states, and that many entries of `unit` bytes.
fn after_counted(head: &Head<'_>, at: usize, unit: usize) -> usize
    requires { (9 ≤ at) × (at < 2 ^ 32) × (unit ≤ 5) }
    ensures value { result ≡ after unit head.now.bytes.now at }
    ensures bound { result ≤ at + 1 + unit * 255 }
{
    at + 1 + unit * usize::from(head.body_byte(at))
}

// The body states every count and length; the places are those of the section.
pub(crate) fn lay_out<'a>(head: &Head<'a>) -> Laid<'a>
    ensures value { result.bytes.now ≡ head.now.bytes.now }
{
    let nature = after_counted(head, 14, 1);
    let times = after_counted(head, nature, 1);
    let text = times + 19;
    let locations = text + usize::from(head.body_word(times + 17));
    let exceptions = after_counted(head, locations, 3);
    let descriptors = after_counted(head, exceptions, 5);
    let check_word = descriptors + 2 + usize::from(head.body_word(descriptors) % 1024);
    let layout = Layout {
        event_code: Span {
            start: 15,
            end: nature,
        },
        nature: Span {
            start: nature + 1,
            end: times,
        },
        times,
        alert: Span {
            start: text,
            end: locations,
        },
        location_count: head.body_byte(locations),
        locations: Span {
            start: locations + 1,
            end: exceptions,
        },
        exceptions: Span {
            start: exceptions + 1,
            end: descriptors,
        },
        descriptors: Span {
            start: descriptors + 2,
            end: check_word,
        },
    };
    Laid {
        bytes: head.bytes,
        layout,
    }
}
