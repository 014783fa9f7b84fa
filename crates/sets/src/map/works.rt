// What the channel map does.
ghost use Rattle.std.specs.Prelude.{◌≡◌, ◌<◌, ◌≤◌, length};
ghost use Rattle.sets.specs.Laws.{map_lawful};
ghost use Rattle.sets.specs.Maps.{map_meaning, new_map};
ghost use Rattle.sets.specs.Meaning.{plain};

use crate::caption::Caption;
use crate::map::ChannelMap;
use crate::refusal::SetRefusal;
use crate::set::Set;
use crate::sound::Sound;
use station::{ChannelPair, Service, SourceId};

// What a map lists that was made on a table that is refused. A literal, since a static makes no call.
static BARE: [Service; 1] = [Service {
    source: SourceId(0),
    channel: ChannelPair { major: 0, minor: 0 },
    controlled: false,
    paid: false,
    apart: false,
}];

impl<'a> ChannelMap<'a> {
    // A map over a table that it fits, with its own sound and no caption.
    fn over(table: &'a [Service], start: usize) -> ChannelMap<'a>
        requires { (length table.now ≤ 256) × (start < length table.now) }
        ensures value { map_meaning result ≡ plain table.now start }
    {
        ChannelMap {
            table,
            shown: start,
            sound: Sound::Own,
            caption: Caption::empty(),
        }
    }

    // A map over the table, or over one bare service where the check refuses the table.
    pub fn new(table: &'a [Service], start: usize) -> ChannelMap<'a>
        ensures value { map_meaning result ≡ new_map table.now start }
    {
        match ChannelMap::check(table, start) {
            Ok(()) => ChannelMap::over(table, start),
            Err(_) => ChannelMap::over(&BARE, 0),
        }
    }

    // Whose sound is heard.
    pub fn sound(&self) -> Sound
        ensures value { result ≡ (map_meaning self.now).sound }
    {
        let ChannelMap { sound, .. } = self;
        *sound
    }

    // The bytes of the caption.
    pub fn caption_bytes(&self) -> &[u8]
        ensures value { result.now ≡ (map_meaning self.now).caption }
    {
        self.caption.as_bytes()
    }
}

impl<'a> Set for ChannelMap<'a> {
    ghost meaning = { map_meaning };

    ghost lawful = { map_lawful };

    fn count(&self) -> usize {
        self.table.len()
    }

    fn service(&self, number: usize) -> Option<Service> {
        self.table.get(number).copied()
    }

    fn shown(&self) -> usize {
        self.shown
    }

    fn tune(&mut self, number: usize) -> Result<(), SetRefusal> {
        if number >= self.table.len() {
            return Err(SetRefusal::PastTheList);
        }
        self.shown = number;
        self.own();
        Ok(())
    }

    fn borrow(&mut self, number: usize) -> Result<(), SetRefusal> {
        let service = self.service(number).ok_or(SetRefusal::PastTheList)?;
        if !service.apart {
            return Err(SetRefusal::NotApart);
        }
        self.sound = Sound::Borrowed(number);
        Ok(())
    }

    fn own(&mut self) {
        self.sound = Sound::Own;
    }

    fn caption(&mut self, bytes: &[u8]) -> Result<(), SetRefusal> {
        self.caption.replace(bytes)?;
        Ok(())
    }
}
