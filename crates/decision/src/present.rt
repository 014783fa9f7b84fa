// The decision and the driver together.
ghost use Rattle.std.specs.Prelude.{◌≡◌, IfErr};
ghost use Rattle.decision.specs.Fits.{Presents, BroughtTo};
ghost use Rattle.decision.specs.Sentences.{TheSentencesSayThePicture};

use super::alert::Alert;
use super::decide::decide_picture;
use super::drive::drive_set;
use sets::{Set, SetRefusal};

// Brings the set to the picture of the alert in force, if any, for a viewer of the service.
pub fn present_alert<S: Set>(
    set: &mut S,
    alert: &Option<Alert>,
    home: usize,
) -> Result<(), SetRefusal>
    ensures cases { Presents (S.meaning set.old) alert.now home result (S.meaning set.new) }
    ensures refused_leaves_the_set { IfErr result (λ _. set.new ≡ set.old) }
    ensures refused_as_its_picture { BroughtTo (S.meaning set.old) alert.now home result (S.meaning set.new) }
{
    let picture = decide_picture(set, alert, home);
    drive_set(set, &picture)
}

// The picture's definition and its three sentences say the same.
pub fn picture_stands() -> u8
    ensures stands { TheSentencesSayThePicture }
    ensures value { result ≡ 0 }
{
    0
}
