// What can be asked of a receiver.
ghost use Rattle.std.specs.Prelude.{◌≡◌, true};
ghost use Rattle.decision.specs.Drives.{Pictures, showing};
ghost use Rattle.history.specs.Forces.{EventInForce};
ghost use Rattle.history.specs.Law.{Law};
ghost use Rattle.history.specs.Viewers.{Home};
ghost use Rattle.receiver.specs.Lists.{OnList};
ghost use Rattle.receiver.specs.Stood.{WhateverCame};
ghost use Rattle.sets.specs.Meaning.{lists_sound};

use super::Receiver;
use decision::{Picture, decide_picture};
use history::State;
use section::EventId;
use sets::Set;

impl<S: Set> Receiver<S> {
    // The viewer's service.
    pub fn home(&self) -> usize
        ensures the_viewers_service { WhateverCame S.meaning self.now (λ s h. Home s h result) }
        ensures on_the_list { WhateverCame S.meaning self.now (λ s h. OnList s result) }
    {
        self.state.home
    }

    // The service on the screen, the sound and the caption, from what the receiver keeps: the set is asked for neither
    // sound nor caption.
    pub fn picture(&self) -> Picture<'_>
        ensures what_the_set_means { WhateverCame S.meaning self.now (λ s h. Pictures result (S.meaning self.now.set)) }
        ensures what_the_calls_ask { WhateverCame S.meaning self.now (λ s h. Law s h (showing s.found result)) }
        ensures on_the_list { WhateverCame S.meaning self.now (λ s h. OnList s result.service) }
        ensures sound_on_the_list { WhateverCame S.meaning self.now (λ s h. lists_sound s.found.services result.sound ≡ true) }
    {
        let State { alert, home, .. } = &self.state;
        decide_picture(&self.set, alert, *home)
    }

    // The event ID of the alert in force.
    pub fn event_in_force(&self) -> Option<EventId>
        ensures of_the_alert_in_force { WhateverCame S.meaning self.now (λ s h. EventInForce s h result) }
    {
        self.state.alert.as_ref().map(|alert| alert.event_id)
    }

    // The set, to be asked and not to be changed.
    pub fn set(&self) -> &S
        ensures value { result.now ≡ self.now.set }
    {
        &self.set
    }

    // Gives the set back.
    pub fn end(self) -> S
        ensures value { result ≡ self.set }
    {
        let Receiver { state: _, set } = self;
        set
    }
}
