// Parts of a section by their place.
ghost use Rattle.std.specs.Prelude.{◌≡◌};
ghost use Rattle.section.specs.Places.{part};

use super::layout::Span;
use super::part::Part;

// The bytes of a span, as far as there are any.
pub(crate) fn part_of(bytes: &[u8], span: Span) -> &[u8]
    ensures value { result.now ≡ part span.start span.end bytes.now }
{
    bytes
        .get(span.start..span.end.min(bytes.len()))
        .unwrap_or(&[])
}

// The same, with its place.
pub(crate) fn part_at(bytes: &[u8], span: Span) -> Part<'_>
    ensures at { result.at ≡ span.start }
    ensures value { result.bytes.now ≡ part span.start span.end bytes.now }
{
    Part {
        at: span.start,
        bytes: part_of(bytes, span),
    }
}
