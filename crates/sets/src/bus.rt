// The studio bus: sixteen inputs, none of them apart, so that its sound is always the picture's own.
ghost use Rattle.std.specs.Prelude.{◌<◌};

use super::caption::Caption;

#[derive(Drop)]
pub struct StudioBus {
    shown: usize,
    caption: Caption,
    ghost inside: { shown < 16 },
}

pub mod works;
