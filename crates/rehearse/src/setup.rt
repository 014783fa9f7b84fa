// The set-up lines, up to the one that ends the set-up.
ghost use Rattle.std.specs.Prelude.{◌≡◌, ◌≤◌, [], length, is_some, OnOk, IfOk, IfSome};
ghost use Rattle.script.specs.Begins.{given};
ghost use Rattle.script.specs.Settled.{settled, unsettled};
ghost use Rattle.rehearse.specs.Exchanges.{NothingWaits, EndsSetup};
ghost use Rattle.rehearse.specs.Setups.{table_after};

use crate::exchange::Exchange;
use script::{Asked, Setting, Settings};
use station::Service;
use std::alloc::{AllocError, Global};
use std::io;

// One service more than a map may have, so that a longer table is seen to be longer.
const MOST: usize = 257;

#[derive(Drop)]
pub struct Setup {
    settings: Settings,
    table: Vec<Service>,
}

impl Setup {
    pub fn new(heap: Global) -> Setup
        ensures settings { result.settings ≡ unsettled }
        ensures table { result.table.items ≡ [] }
    {
        Setup {
            settings: Settings::none(),
            table: Vec::new(heap),
        }
    }

    pub fn settings(&self) -> &Settings
        ensures { result.now ≡ self.now.settings }
    {
        &self.settings
    }

    pub fn table(&self) -> &[Service]
        ensures { result.now ≡ self.now.table.items }
    {
        self.table.as_slice()
    }

    // Takes a setting, unless its like was given before: whether it is taken.
    fn take(&mut self, setting: Setting) -> Result<bool, AllocError>
        ensures value { IfOk result (λ taken. taken ≡ is_some (settled self.old.settings setting)) }
        ensures settings { OnOk result (self.new.settings ≡ given self.old.settings (settled self.old.settings setting)) }
        ensures table { OnOk result (self.new.table.items ≡ table_after self.old.table.items setting) }
    {
        if let Setting::Service(service) = setting {
            if self.table.len() < MOST {
                self.table.push(service)?;
            }
        }
        let taken = self.settings.with(setting);
        self.settings = taken.unwrap_or(self.settings);
        Ok(taken.is_some())
    }

    // Takes the set-up lines, and says what the line that ends the set-up asks for besides; none at the end of the script.
    pub fn take_lines(&mut self, exchange: &mut Exchange) -> io::Result<Option<Asked>>
        ensures asked { IfOk result (λ asked. IfSome asked EndsSetup) }
        ensures bound { length self.old.table.items ≤ 257 → OnOk result (length self.new.table.items ≤ 257) }
        ensures written { NothingWaits exchange.old → OnOk result (NothingWaits exchange.new) }
    {
        // a script may have no end, so that no measure falls in a `while let`
        for _ in 0..u64::MAX {
            let Some(asked) = exchange.next()? else {
                break;
            };
            let understood = match asked {
                Asked::Nothing => true,
                Asked::Unknown => false,
                Asked::Setting(setting) => self.take(setting)?,
                Asked::Begin => return Ok(Some(Asked::Nothing)),
                call => return Ok(Some(call)),
            };
            if !understood {
                exchange.not_understood()?;
            }
        }
        Ok(None)
    }
}
