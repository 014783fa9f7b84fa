// The services that an alert points to, on any set.
ghost use Rattle.std.specs.Prelude.{◌≡◌, position};
ghost use Rattle.decision.specs.Lookups.{bears, details_name, details_of, IsApart, IsAudio, IsSound, Picks};

use super::name::{Name, is_named};
use section::Fields;
use sets::Set;
use station::Path;

// The first service that has the name.
pub fn first_named<S: Set>(set: &S, name: Name) -> Option<usize>
    ensures { result ≡ position (bears name) (S.meaning set.now).services }
{
    (0..set.count()).find(|k| is_named(set.service(*k), name))
}

// The set, the path and the fields are not one struct: callers, who have them apart, would have to make it.

// The details service: in-band by its channel pair, out-of-band by its source ID.
pub fn details_service<S: Set>(set: &S, path: Path, fields: &Fields) -> Option<usize>
    ensures { result ≡ details_of path fields.now (S.meaning set.now).services }
{
    match path {
        Path::InBand => first_named(set, Name::Channel(fields.details_channel)),
        Path::OutOfBand => first_named(set, Name::Source(fields.details_source)),
    }
}

// The service, if its sound can be heard apart from its picture.
fn if_apart<S: Set>(set: &S, number: Option<usize>) -> Option<usize>
    ensures { Picks (IsApart (S.meaning set.now).services number) result }
{
    number.filter(|k| set.service(*k).is_some_and(|service| service.apart))
}

// Out-of-band, the audio service if it is apart.
fn audio_service<S: Set>(set: &S, path: Path, fields: &Fields) -> Option<usize>
    ensures { Picks (IsAudio path fields.now (S.meaning set.now).services) result }
{
    match path {
        Path::InBand => None,
        Path::OutOfBand => {
            let audio = first_named(set, Name::Source(fields.audio_source));
            if_apart(set, audio)
        }
    }
}

// The service whose sound can be borrowed for the alert.
pub fn borrowable_sound<S: Set>(
    set: &S,
    path: Path,
    fields: &Fields,
    details: Option<usize>,
) -> Option<usize>
    ensures { Picks (IsSound path fields.now (S.meaning set.now).services details) result }
{
    audio_service(set, path, fields).or_else(|| if_apart(set, details))
}
