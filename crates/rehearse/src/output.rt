// Where the answers go.
ghost use Rattle.std.specs.Prelude.{◌≡◌, [], IfOk, OnOk};
ghost use Rattle.std.specs.Io.Buffered.{writer_buffer};
ghost use Rattle.rehearse.specs.Told.{Empty};

use crate::printer::Printer;
use std::io;
use std::io::{BufWriter, Stdout, Write};

#[derive(Drop)]
pub struct Output {
    writer: BufWriter<Stdout>,
    pub printer: Printer,
}

impl Output {
    pub fn new(rt: &HostRuntime) -> io::Result<Output>
        ensures { IfOk result (λ output. Empty output.printer) }
    {
        Ok(Output {
            writer: BufWriter::new(rt.alloc(), rt.stdout())?,
            printer: Printer::new(rt.alloc()),
        })
    }

    // Writes what was printed.
    pub fn write(&mut self) -> io::Result<()>
        ensures all { OnOk result (self.old.printer.outcome ≡ Ok tt) }
        ensures after { OnOk result (self.new.printer.record ≡ []) }
    {
        self.printer.outcome()?;
        self.writer.write_all(self.printer.bytes())?;
        self.printer.clear();
        Ok(())
    }

    // Hands on what was written.
    pub fn flush(&mut self) -> io::Result<()>
        ensures after { OnOk result (writer_buffer self.new.writer ≡ []) }
        ensures same { self.new.printer ≡ self.old.printer }
    {
        self.writer.flush()
    }
}
