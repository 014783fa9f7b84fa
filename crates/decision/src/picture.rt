// What a set is to show, sound and caption.
use sets::Sound;

#[derive(Clone, Copy, PartialEq, Eq, Debug)]
pub struct Picture<'a> {
    pub service: usize,
    pub sound: Sound,
    pub caption: &'a [u8],
}
