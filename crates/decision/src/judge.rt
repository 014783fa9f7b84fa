// Whether an alert applies, and what it shows and sounds.
ghost use Rattle.std.specs.Prelude.{◌≡◌, ℕ, ◌≤◌, false, slice_index_or};
ghost use Rattle.sets.specs.Meaning.{service_at};
ghost use Rattle.decision.specs.Pictures.{applies, applies_to, shown_by, service_for};

use super::alert::{Alert, Excepted};
use sets::{Set, Sound};
use station::Service;

impl Excepted {
    // Whether the service of a number is marked; past the marks none is.
    pub fn holds(&self, number: usize) -> bool
        ensures { result ≡ slice_index_or self.now.marks number false }
    {
        self.marks.get(number).copied().unwrap_or(false)
    }
}

// Judged by the viewer's service.
fn does_apply(excepted: bool, priority: u8, service: Option<Service>) -> bool
    ensures { result ≡ applies excepted priority service }
{
    let bought = service.is_some_and(|service| service.paid) && (4..=7).contains(&priority);
    let locked = service.is_some_and(|service| service.controlled) && (1..=3).contains(&priority);
    !excepted && !bought && !locked
}

// Whether the alert applies to a viewer of the service.
pub fn applies_to<S: Set>(set: &S, alert: &Alert, home: usize) -> bool
    ensures { result ≡ applies_to alert.now (S.meaning set.now).services home }
{
    does_apply(
        alert.excepted.holds(home),
        alert.priority.0,
        set.service(home),
    )
}

// The service to show under an alert that applies.
pub(crate) fn service_for(alert: &Alert, home: usize) -> usize
    ensures { result ≡ service_for alert.now home alert.now.sound }
{
    match (alert.sound, alert.details) {
        (None, Some(k)) if (12..=15).contains(&alert.priority.0) => k,
        _ => home,
    }
}
