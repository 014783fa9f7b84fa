// The picture that an alert asks for.
ghost use Rattle.std.specs.Prelude.{◌≡◌, []};
ghost use Rattle.decision.specs.Drives.{Pictures};
ghost use Rattle.decision.specs.Pictures.{alerted as alertedBy, pictured};

use super::alert::Alert;
use super::judge::{applies_to, service_for};
use super::picture::Picture;
use sets::{Set, Sound};

// The picture under the alert in force, if any, for a viewer of the service. The option is lent whole: for an
// `Option<&Alert>` the clause would first have to turn an option of references into one of alerts.
pub fn decide_picture<'a, S: Set>(set: &S, alert: &'a Option<Alert>, home: usize) -> Picture<'a>
    ensures { Pictures result (pictured alert.now (S.meaning set.now).services home) }
{
    match alert {
        Some(alert) if applies_to(set, alert, home) => alerted(alert, home),
        _ => plain(home),
    }
}

// Under an alert that applies.
fn alerted<'a>(alert: &'a Alert, home: usize) -> Picture<'a>
    ensures { Pictures result (alertedBy alert.now [] home) }
{
    Picture {
        service: service_for(alert, home),
        sound: Sound::from(alert.sound),
        caption: alert.text.as_bytes(),
    }
}

// The viewer's service alone.
fn plain<'a>(home: usize) -> Picture<'a>
    ensures { (result.service ≡ home) × (result.sound ≡ Sound.Own) × (result.caption.now ≡ []) }
{
    Picture {
        service: home,
        sound: Sound::Own,
        caption: &[],
    }
}
