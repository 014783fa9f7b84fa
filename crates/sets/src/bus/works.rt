// What the studio bus does.
ghost use Rattle.std.specs.Prelude.{◌≡◌, ◌<◌};
ghost use Rattle.sets.specs.Bus.{bus_meaning, input, inputs};
ghost use Rattle.sets.specs.Laws.{bus_lawful};
ghost use Rattle.sets.specs.Meaning.{plain};

use crate::bus::StudioBus;
use crate::caption::Caption;
use crate::refusal::SetRefusal;
use crate::set::Set;
use crate::sound::Sound;
use station::{ChannelPair, Service, SourceId};

const INPUTS: usize = 16;

// One input: the pair follows its number (by `as`: there is no `From<usize>` for `u16`), and it has neither an ID nor marks.
fn input_of(number: usize) -> Service
    requires { number < 16 }
    ensures value { result ≡ input number }
{
    let channel = ChannelPair {
        major: number as u16 + 1,
        minor: 0,
    };
    Service::unmarked(SourceId(0), channel)
}

impl StudioBus {
    // A bus that shows its first input, with an empty caption.
    pub fn new() -> StudioBus
        ensures value { bus_meaning result ≡ plain (inputs 0 16) 0 }
    {
        StudioBus {
            shown: 0,
            caption: Caption::empty(),
        }
    }

    // Whose sound is heard.
    pub fn sound(&self) -> Sound
        ensures value { result ≡ (bus_meaning self.now).sound }
    {
        Sound::Own
    }

    // The bytes of the caption.
    pub fn caption_bytes(&self) -> &[u8]
        ensures value { result.now ≡ (bus_meaning self.now).caption }
    {
        self.caption.as_bytes()
    }
}

impl Set for StudioBus {
    ghost meaning = { bus_meaning };

    ghost lawful = { bus_lawful };

    fn count(&self) -> usize {
        INPUTS
    }

    fn service(&self, number: usize) -> Option<Service> {
        if number >= INPUTS {
            return None;
        }
        Some(input_of(number))
    }

    fn shown(&self) -> usize {
        self.shown
    }

    fn tune(&mut self, number: usize) -> Result<(), SetRefusal> {
        if number >= INPUTS {
            return Err(SetRefusal::PastTheList);
        }
        self.shown = number;
        Ok(())
    }

    // No input is apart.
    fn borrow(&mut self, number: usize) -> Result<(), SetRefusal> {
        if number < INPUTS {
            Err(SetRefusal::NotApart)
        } else {
            Err(SetRefusal::PastTheList)
        }
    }

    // Nothing is ever borrowed.
    fn own(&mut self) {}

    fn caption(&mut self, bytes: &[u8]) -> Result<(), SetRefusal> {
        self.caption.replace(bytes)?;
        Ok(())
    }
}
