// The rules of a table of services with its start, tested in their order.
ghost use Rattle.std.specs.Prelude.{◌≡◌, true, false};
ghost use Rattle.station.specs.Rules.{Gives};
ghost use Rattle.sets.specs.Maps.{new_map};
ghost use Rattle.sets.specs.Meaning.{plain};
ghost use Rattle.sets.specs.Refusals.{table_number};
ghost use Rattle.sets.specs.Tables.{sized, numbered, all_numbered, table_refusal};

use super::map::ChannelMap;
use super::refusal::TableRefusal;
use station::Service;

fn is_sized(table: &[Service]) -> bool
    ensures value { result ≡ sized table.now }
{
    (1..=256).contains(&table.len())
}

fn is_numbered(service: &Service) -> bool
    ensures value { result ≡ numbered service.now }
{
    service.channel.major <= 1023 && service.channel.minor <= 1023
}

fn all_numbered(table: &[Service]) -> bool
    ensures value { result ≡ all_numbered table.now }
{
    table.iter().all(is_numbered)
}

impl<'a> ChannelMap<'a> {
    // Whether a map over the table can start there, and is then made over it; if not, the first rule that is broken.
    pub fn check(table: &[Service], start: usize) -> Result<(), TableRefusal>
        ensures cases { Gives table_number (table_refusal table.now start) (λ _. new_map table.now start ≡ plain table.now start) result }
    {
        if !is_sized(table) {
            return Err(TableRefusal::Size);
        }
        if !all_numbered(table) {
            return Err(TableRefusal::ChannelNumber);
        }
        if start >= table.len() {
            return Err(TableRefusal::Start);
        }
        Ok(())
    }
}
