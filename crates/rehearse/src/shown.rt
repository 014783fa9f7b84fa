// What a receiver is at, and what its set shows.
ghost use Rattle.receiver.specs.Stood.{WhateverCame};
ghost use Rattle.rehearse.specs.Told.{ShowsTheLaw};

use decision::Picture;
use receiver::Receiver;
use section::EventId;
use sets::Set;

#[derive(Clone, Copy, PartialEq, Eq, Debug)]
pub struct Shown<'a> {
    // the viewer's service
    pub home: usize,
    // on the screen, with its sound and its caption
    pub picture: Picture<'a>,
    // of the alert in force
    pub alert: Option<EventId>,
}

pub fn shown_by<S: Set>(receiver: &Receiver<S>) -> Shown<'_>
    ensures { WhateverCame S.meaning receiver.now (λ s h. ShowsTheLaw s h result) }
{
    Shown {
        home: receiver.home(),
        picture: receiver.picture(),
        alert: receiver.event_in_force(),
    }
}
