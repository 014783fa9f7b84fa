// Whole runs of calls.
ghost use Rattle.std.specs.Prelude.{◌≡◌, [], ◌++◌, map, length, drop};
ghost use Rattle.document.specs.Law.{DescriptorOrderDoesNotMatter};
ghost use Rattle.history.specs.Law.{Law, Determined};
ghost use Rattle.history.specs.Replies.{event, Replied};
ghost use Rattle.receiver.specs.Runs.{RefusesAll, AlwaysAsks};
ghost use Rattle.receiver.specs.Stood.{began, Stood, WhateverCame};

use crate::receiver::Receiver;
use calls::{Call, Reply};
use sets::Set;
use station::Outset;

// Goes on with a receiver that already had any calls. The replies are written as far as there is room.
pub fn carry_on<S: Set>(receiver: &mut Receiver<S>, calls: &[Call<'_>], replies: &mut [Reply])
    ensures stands { WhateverCame S.meaning receiver.old (λ s h. Stood S.meaning s (h ++ map event calls.now) receiver.new) }
    ensures the_set_shows_what_the_calls_ask { WhateverCame S.meaning receiver.old (λ s h. Law s (h ++ map event calls.now) (S.meaning receiver.new.set)) }
    ensures the_calls_before_determine_each_reply { WhateverCame S.meaning receiver.old (λ s h. Replied s h (map event calls.now) replies.new) }
    ensures refusals_change_nothing { WhateverCame S.meaning receiver.old (λ s h. RefusesAll s h (map event calls.now) → receiver.new ≡ receiver.old) }
    ensures a_set_that_always_shows_it_is_spared { WhateverCame S.meaning receiver.old (λ s h. AlwaysAsks s h (map event calls.now) (S.meaning receiver.old.set) → receiver.new.set ≡ receiver.old.set) }
    ensures rest { drop (length calls.now) replies.new ≡ drop (length calls.now) replies.old }
{
    for (i, call) in calls.iter().enumerate() {
        let reply = receiver.call(*call);
        // By index, since there may be fewer replies than calls, and `get_mut` does not promise what the slice ends as.
        if i < replies.len() {
            replies[i] = reply;
        }
    }
}

// A receiver begins on the set and is given the calls.
pub fn rehearse<S: Set>(
    set: S,
    outset: Outset,
    calls: &[Call<'_>],
    replies: &mut [Reply],
) -> Receiver<S>
    ensures stands { Stood S.meaning (began outset (S.meaning set)) (map event calls.now) result }
    ensures the_set_shows_what_the_calls_ask { Law (began outset (S.meaning set)) (map event calls.now) (S.meaning result.set) }
    ensures the_calls_before_determine_each_reply { Replied (began outset (S.meaning set)) [] (map event calls.now) replies.new }
    ensures the_calls_determine_the_set_and_the_replies { Determined }
    ensures the_order_of_descriptors_does_not_matter { DescriptorOrderDoesNotMatter }
    ensures rest { drop (length calls.now) replies.new ≡ drop (length calls.now) replies.old }
{
    let mut receiver = Receiver::begin(set, outset);
    carry_on(&mut receiver, calls, replies);
    receiver
}
