// The channel map: a set over a table of services that is lent to it.
ghost use Rattle.std.specs.Prelude.{◌≡◌, ℕ, ◌<◌, ◌≤◌, true, length};
ghost use Rattle.sets.specs.Meaning.{lists_sound, hearable};

use super::caption::Caption;
use super::sound::Sound;
use station::Service;

#[derive(Drop)]
pub struct ChannelMap<'a> {
    table: &'a [Service],
    shown: usize,
    sound: Sound,
    caption: Caption,
    ghost few: { length table.now ≤ 256 },
    ghost inside: { shown < length table.now },
    ghost listed: { lists_sound table.now sound ≡ true },
    ghost heard: { hearable table.now sound ≡ true },
}

pub mod works;
