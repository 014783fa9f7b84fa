// A section with the places of its parts.
ghost use Rattle.std.specs.Prelude.{◌≡◌, ◌<◌, ◌^◌};
ghost use Rattle.section.specs.Places.{layout_of};

use super::layout::Layout;

#[derive(Clone, Copy)]
pub(crate) struct Laid<'a> {
    pub bytes: &'a [u8],
    pub layout: Layout,
    ghost places: { layout ≡ layout_of bytes.now },
    ghost near: { layout.times < 2 ^ 16 },
}
