// What an alert names a service by.
ghost use Rattle.std.specs.Prelude.{◌≡◌};
ghost use Rattle.sets.specs.Meaning.{holds};
ghost use Rattle.decision.specs.Lookups.{bears as bearsName};

use station::{ChannelPair, Service, SourceId};

// An exception entry states such a name too, but for one path alone: as one type, either would be misnamed.
#[derive(Clone, Copy, PartialEq, Eq, Debug)]
pub enum Name {
    Channel(ChannelPair),
    Source(SourceId),
}

// Whether the service has the name.
fn bears(service: Service, name: Name) -> bool
    ensures { result ≡ bearsName name service }
{
    match name {
        Name::Channel(pair) => pair.names(service.channel),
        Name::Source(id) => id.names(service.source),
    }
}

// Whether there is a service and it has the name.
pub(crate) fn is_named(service: Option<Service>, name: Name) -> bool
    ensures { result ≡ holds (bearsName name) service }
{
    service.is_some_and(|service| bears(service, name))
}
