// The lines of the script, and the answers to them.
ghost use Rattle.std.specs.Prelude.{◌≡◌, ◌+◌, ◌-◌, ◌^◌, min, IfOk, OnOk, codes};
ghost use Rattle.rehearse.specs.Exchanges.{NothingWaits, WritesAll};
ghost use Rattle.rehearse.specs.Printed.{numbered};
ghost use Rattle.rehearse.specs.Told.{Empty, Tells};

use crate::input::Input;
use crate::output::Output;
use script::Asked;
use std::io;

#[derive(Drop)]
pub struct Exchange {
    pub input: Input,
    pub output: Output,
}

impl Exchange {
    pub fn new(rt: &HostRuntime) -> io::Result<Exchange>
        ensures { IfOk result (λ x. (x.input.number ≡ 0) × Empty x.output.printer) }
    {
        Ok(Exchange {
            input: Input::new(rt)?,
            output: Output::new(rt)?,
        })
    }

    // What the next line asks for; none at the end of the script. Before a read that may wait, all answers are out.
    pub fn next(&mut self) -> io::Result<Option<Asked>>
        ensures number { OnOk result (self.new.input.number ≡ min (2 ^ 64 - 1) (self.old.input.number + 1)) }
        ensures same { self.new.output.printer ≡ self.old.output.printer }
    {
        if !self.input.has_line() {
            self.output.flush()?;
        }
        self.input.next()
    }

    // Prints the number of the line, and writes nothing yet.
    pub fn print_not_understood(&mut self)
        ensures line { Tells self.old.output.printer self.new.output.printer (numbered (codes "call=none line=") self.old.input.number) }
        ensures same { self.new.input ≡ self.old.input }
    {
        self.output.printer.not_understood(self.input.number());
    }

    pub fn not_understood(&mut self) -> io::Result<()>
        ensures written { OnOk result (NothingWaits self.new) }
        ensures same { self.new.input ≡ self.old.input }
    {
        self.print_not_understood();
        self.output.write()
    }

    // Answers what was read already, and then each line to the end of the script.
    pub(crate) fn answer_all<F: FnMut(&mut Exchange, Asked) -> io::Result<()>>(
        &mut self,
        first: Asked,
        mut answer: F,
    ) -> io::Result<()>
        requires callable { F.IsAlwaysCallable answer }
        requires written { WritesAll F.FnMut }
        ensures { NothingWaits self.old → OnOk result (NothingWaits self.new) }
    {
        answer(self, first)?;
        // a script may have no end, so that no measure falls in a `while let`
        for _ in 0..u64::MAX {
            let Some(asked) = self.next()? else {
                break;
            };
            answer(self, asked)?;
        }
        Ok(())
    }
}
