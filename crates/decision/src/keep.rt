// What is kept of an alert that comes into force.
ghost use Rattle.std.specs.Prelude.{◌≡◌, ℕ, ◌+◌, ◌<◌, false, IfOk, slice_index_or};
ghost use Rattle.station.specs.Rules.{Gives};
ghost use Rattle.section.specs.Origins.{bytes_of};
ghost use Rattle.section.specs.Refusals.{number};
ghost use Rattle.section.specs.Rules.{refusal};
ghost use Rattle.sets.specs.Meaning.{service_at};
ghost use Rattle.decision.specs.Alerts.{end_of, Marked, Keeps};
ghost use Rattle.decision.specs.Fits.{Fits};

use super::alert::{Alert, Excepted};
use super::lookup::{borrowable_sound, details_service};
use entries::Tuned;
use section::{Seconds, Section, SectionRefusal};
use sets::Set;
use station::{Path, Service};

// The reading at which an alert goes.
pub fn end_of(clock: u32, seconds: Seconds) -> Option<u64>
    ensures { result ≡ end_of clock seconds.0 }
{
    if seconds.0 == 0 {
        None
    } else {
        Some(u64::from(clock) + u64::from(seconds.0))
    }
}

// Whether the section excepts the service on the path.
fn is_excepted(
    section: &Section<'_>,
    path: Path,
    service: Option<Service>,
) -> Result<bool, SectionRefusal>
    ensures { Gives number (refusal (bytes_of section.now)) (λ mark. Marked (bytes_of section.now) path service mark) result }
{
    match service {
        Some(service) => section.excepts(&Tuned { service, path }),
        None => section.refusal().map_or(Ok(false), Err),
    }
}

// The marks of all possible services.
fn excepted_by<S: Set>(
    section: &Section<'_>,
    set: &S,
    path: Path,
) -> Result<Excepted, SectionRefusal>
    ensures { Gives number (refusal (bytes_of section.now)) (λ x. (k : ℕ) → k < 256 → Marked (bytes_of section.now) path (service_at (S.meaning set.now).services k) (slice_index_or x.marks k false)) result }
{
    let mut marks = [false; 256];
    for (k, mark) in marks.iter_mut().enumerate() {
        *mark = is_excepted(section, path, set.service(k))?;
    }
    Ok(Excepted { marks })
}

// The alert of a section, on the set and path that it reaches, at the clock's reading.
pub fn keep_alert<S: Set>(
    section: &Section<'_>,
    set: &S,
    path: Path,
    clock: u32,
) -> Result<Alert, SectionRefusal>
    ensures cases { Gives number (refusal (bytes_of section.now)) (λ alert. Keeps (bytes_of section.now) (S.meaning set.now).services path clock alert) result }
    ensures fits { IfOk result (λ alert. Fits (S.meaning set.now).services alert) }
{
    let fields = section.fields()?;
    let text = section.text()?;
    let excepted = excepted_by(section, set, path)?;
    let details = details_service(set, path, &fields);
    Ok(Alert {
        event_id: fields.event_id,
        priority: fields.priority,
        end: end_of(clock, fields.seconds),
        details,
        sound: borrowable_sound(set, path, &fields, details),
        text,
        excepted,
    })
}
