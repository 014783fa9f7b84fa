// A part of a section, with its place.
#[derive(Clone, Copy, PartialEq, Eq, Debug)]
pub struct Part<'a> {
    pub at: usize,
    pub bytes: &'a [u8],
}
