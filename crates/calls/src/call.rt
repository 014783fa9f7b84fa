// What a receiver is given.
#[derive(Clone, Copy, PartialEq, Eq, Debug)]
pub enum Call<'a> {
    // the bytes of a section
    Section(&'a [u8]),
    // a reading of the clock, in seconds
    Reading(u32),
    // the number of the service that the viewer chooses
    Choice(usize),
}
