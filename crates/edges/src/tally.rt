// Expected beside what came out, a line each, and how many are wrong.
use std::io;
use std::io::Write;

#[derive(Drop)]
pub struct Tally<W: Write + Drop> {
    out: W,
    tried: u32,
    wrong: u32,
}

impl<W: Write + Drop> Tally<W> {
    pub fn new(out: W) -> Tally<W> {
        Tally {
            out,
            tried: 0,
            wrong: 0,
        }
    }

    fn count(&mut self, right: bool) {
        self.tried = self.tried.saturating_add(1);
        if !right {
            self.wrong = self.wrong.saturating_add(1);
        }
    }

    pub fn number(&mut self, name: &str, expected: u32, came: u32) -> io::Result<()> {
        self.count(expected == came);
        writeln!(self.out, "{name}: expected={expected} came={came}")
    }

    pub fn bytes(&mut self, name: &str, expected: &[u8], came: &[u8]) -> io::Result<()> {
        self.count(expected == came);
        write!(self.out, "{name}: expected=")?;
        self.out.write_all(expected)?;
        self.out.write_all(b" came=")?;
        self.out.write_all(came)?;
        self.out.write_all(b"\n")
    }

    pub fn end(self) -> io::Result<()> {
        let Tally {
            mut out,
            tried,
            wrong,
        } = self;
        writeln!(out, "{tried} tried, {wrong} wrong")?;
        out.flush()
    }
}
