// Brings a set to a picture.
ghost use Rattle.std.specs.Prelude.{◌≡◌, ◌<◌, ⊤, true, None, IfErr};
ghost use Rattle.station.specs.Rules.{unless, Gives};
ghost use Rattle.sets.specs.Meaning.{count_of, lists_sound, tuned};
ghost use Rattle.sets.specs.Refusals.{refusal_number};
ghost use Rattle.decision.specs.Drives.{sounds_apart, obstacle, showing, Drives};

use super::picture::Picture;
use sets::{Set, SetRefusal, Sound};

// Whether the set can sound so.
fn check_sound<S: Set>(set: &S, sound: Sound) -> Result<(), SetRefusal>
    ensures { Gives refusal_number (unless (lists_sound (S.meaning set.now).services sound) 61 (unless (sounds_apart (S.meaning set.now).services sound) 62 None)) (λ _. ⊤) result }
{
    let Sound::Borrowed(k) = sound else {
        return Ok(());
    };
    let service = set.service(k).ok_or(SetRefusal::PastTheList)?;
    if !service.apart {
        return Err(SetRefusal::NotApart);
    }
    Ok(())
}

// Whether the set can show the picture.
fn check_picture<S: Set>(set: &S, picture: &Picture<'_>) -> Result<(), SetRefusal>
    ensures { Gives refusal_number (obstacle (S.meaning set.now).services picture.now) (λ _. ⊤) result }
{
    if picture.service >= set.count() {
        return Err(SetRefusal::PastTheList);
    }
    check_sound(set, picture.sound)?;
    if picture.caption.len() > 1024 {
        return Err(SetRefusal::CaptionTooLong);
    }
    Ok(())
}

// The service with its own sound. The set is asked first what it shows: a tuner that is told to tune
// to the service that it shows would blink.
fn turn<S: Set>(set: &mut S, number: usize)
    requires { number < count_of (S.meaning set.old) }
    ensures { S.meaning set.new ≡ tuned (S.meaning set.old) number }
{
    if set.shown() == number {
        set.own();
    } else {
        let _ = set.tune(number);
    }
}

// The sound, on a set that has its own.
fn hear<S: Set>(set: &mut S, sound: Sound)
    requires on_the_list { lists_sound (S.meaning set.old).services sound ≡ true }
    requires apart { sounds_apart (S.meaning set.old).services sound ≡ true }
    requires set_value { (S.meaning set.old).sound ≡ Sound.Own }
    ensures { S.meaning set.new ≡ record (S.meaning set.old) { sound = sound } }
{
    if let Sound::Borrowed(k) = sound {
        let _ = set.borrow(k);
    }
}

// A picture that nothing stands against.
fn show<S: Set>(set: &mut S, picture: &Picture<'_>)
    requires { obstacle (S.meaning set.old).services picture.now ≡ None }
    ensures { S.meaning set.new ≡ showing (S.meaning set.old) picture.now }
{
    turn(set, picture.service);
    hear(set, picture.sound);
    let _ = set.caption(picture.caption);
}

// Brings the set to the picture, whatever it meant before; refused, it is left as it was.
pub fn drive_set<S: Set>(set: &mut S, picture: &Picture<'_>) -> Result<(), SetRefusal>
    ensures cases { Drives (S.meaning set.old) picture.now result (S.meaning set.new) }
    ensures refused_leaves_the_set { IfErr result (λ _. set.new ≡ set.old) }
{
    check_picture(set, picture)?;
    show(set, picture);
    Ok(())
}
