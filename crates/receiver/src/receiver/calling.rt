// The calls: a section, a reading, a choice, and whichever of them is given.
ghost use Rattle.std.specs.Prelude.{◌≡◌, OnErr};
ghost use Rattle.calls.specs.Replying.{of_section, of_grant};
ghost use Rattle.calls.specs.Verdicts.{IsRefusal, verdict_of};
ghost use Rattle.calls.specs.declared.refusal.CallRefusal.TheVariants.{Reading, Choice};
ghost use Rattle.history.specs.Histories.{sent, told, chose};
ghost use Rattle.history.specs.Replies.{event, Due};
ghost use Rattle.receiver.specs.Stood.{WhateverCame, GoesOn, Shows, Spares};

use super::Receiver;
use crate::judge::judge;
use crate::sheet::{after_answer, after_choice, after_reading, with_alert};
use calls::{Answer, Call, ChoiceRefusal, ReadingRefusal, Reply};
use decision::keep_alert;
use history::State;
use section::{Section, SectionRefusal};
use sets::Set;

impl<S: Set> Receiver<S> {
    // A section comes. One that is refused or repeated changes nothing; a test and one for elsewhere enter
    // their sequence number; an alert in force replaces the one before it.
    pub fn section(&mut self, bytes: &[u8]) -> Result<Answer, SectionRefusal>
        ensures stands { GoesOn S.meaning (sent bytes.now) self.old self.new }
        ensures the_set_shows_what_the_calls_ask { Shows S.meaning (sent bytes.now) self.old self.new }
        ensures the_calls_before_determine_the_reply { WhateverCame S.meaning self.old (λ s h. Due s h (verdict_of (of_section result)) (sent bytes.now)) }
        ensures a_refusal_changes_nothing { OnErr result (self.new ≡ self.old) }
        ensures a_set_that_shows_it_is_spared { Spares S.meaning (sent bytes.now) self.old self.new }
    {
        let section = Section::read(bytes);
        let judged = judge(&self.state, &section)?;
        let State { path, clock, .. } = self.state;
        let noted = after_answer(&self.state, judged.answer, judged.sequence);
        if let Answer::InForce(_) = judged.answer {
            let alert = keep_alert(&section, &self.set, path, clock)?;
            self.turn_to(with_alert(&noted, alert));
        } else {
            self.state = noted;
        }
        Ok(judged.answer)
    }

    // The clock is told. An alert whose end is at or before the reading goes.
    pub fn reading(&mut self, seconds: u32) -> Result<(), ReadingRefusal>
        ensures stands { GoesOn S.meaning (told seconds) self.old self.new }
        ensures the_set_shows_what_the_calls_ask { Shows S.meaning (told seconds) self.old self.new }
        ensures the_calls_before_determine_the_reply { WhateverCame S.meaning self.old (λ s h. Due s h (verdict_of (of_grant Reading result)) (told seconds)) }
        ensures a_refusal_changes_nothing { OnErr result (self.new ≡ self.old) }
        ensures a_set_that_shows_it_is_spared { Spares S.meaning (told seconds) self.old self.new }
    {
        let next = after_reading(&self.state, seconds)?;
        self.turn_to(next);
        Ok(())
    }

    // The viewer chooses a service.
    pub fn choice(&mut self, number: usize) -> Result<(), ChoiceRefusal>
        ensures stands { GoesOn S.meaning (chose number) self.old self.new }
        ensures the_set_shows_what_the_calls_ask { Shows S.meaning (chose number) self.old self.new }
        ensures the_calls_before_determine_the_reply { WhateverCame S.meaning self.old (λ s h. Due s h (verdict_of (of_grant Choice result)) (chose number)) }
        ensures a_refusal_changes_nothing { OnErr result (self.new ≡ self.old) }
        ensures a_set_that_shows_it_is_spared { Spares S.meaning (chose number) self.old self.new }
    {
        let next = after_choice(&self.state, self.set.count(), number)?;
        self.turn_to(next);
        Ok(())
    }

    // Makes one call, whichever it is.
    pub fn call(&mut self, call: Call<'_>) -> Reply
        ensures stands { GoesOn S.meaning (event call.entry) self.old self.new }
        ensures the_set_shows_what_the_calls_ask { Shows S.meaning (event call.entry) self.old self.new }
        ensures the_calls_before_determine_the_reply { WhateverCame S.meaning self.old (λ s h. Due s h (verdict_of result) (event call.entry)) }
        ensures a_refusal_changes_nothing { IsRefusal (verdict_of result) → self.new ≡ self.old }
        ensures a_set_that_shows_it_is_spared { Spares S.meaning (event call.entry) self.old self.new }
    {
        match call {
            Call::Section(bytes) => Reply::from(self.section(bytes)),
            Call::Reading(seconds) => Reply::from(self.reading(seconds)),
            Call::Choice(number) => Reply::from(self.choice(number)),
        }
    }
}
