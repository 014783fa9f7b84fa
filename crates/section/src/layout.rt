// The places of a section's parts.
// std's range is not `Copy`, and a section with its layout is.
#[derive(Clone, Copy)]
pub struct Span {
    pub start: usize,
    pub end: usize,
}

#[derive(Clone, Copy)]
pub struct Layout {
    pub event_code: Span,
    pub nature: Span,
    // the first of the nineteen bytes with seconds, start, duration and so on
    pub times: usize,
    pub alert: Span,
    pub location_count: u8,
    pub locations: Span,
    pub exceptions: Span,
    pub descriptors: Span,
}
