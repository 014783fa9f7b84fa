// Prints what is in the sections that are given as hexadecimal lines on standard input.
#![tactic(auto)]

mod input;
mod print;

use input::{Asked, ROOM};
use lines::{LineBuffer, value_in};
use print::Heading;
use records::Record;
use section::{Section, SectionRefusal};
use std::alloc::AllocError;
use std::io;
use std::io::{BufReader, BufWriter, Write};

// Enough of a line for such a section.
const MOST: usize = 16_384;

// One line's record. A section past the room is refused by its length alone.
fn answer(
    out: &mut Record,
    asked: Asked,
    room: &[u8; ROOM],
    line: u64,
    section: u64,
) -> Result<(), AllocError> {
    match asked {
        Asked::Nothing => Ok(()),
        Asked::Unknown => {
            out.field(b"call=none line=", line)?;
            out.text(b"\n")
        }
        Asked::Section(size) => {
            let heading = Heading {
                number: section,
                size,
            };
            match value_in(room, size) {
                Some(bytes) => print::section(out, heading, &Section::read(bytes)),
                None => print::refused(out, heading, SectionRefusal::Length),
            }
        }
    }
}

fn run(rt: &HostRuntime) -> io::Result<()> {
    let mut input = BufReader::new(rt.alloc(), rt.stdin())?;
    let mut out = BufWriter::new(rt.alloc(), rt.stdout())?;
    let mut line = LineBuffer::new(rt.alloc(), MOST);
    let mut record = Record::new(rt.alloc());
    let mut room = [0u8; ROOM];
    let mut sections = 0u64;
    // input may have no end, so that no measure falls in a `while let`; the number is that of the line
    for number in 1..u64::MAX {
        // Before a read that may wait, all answers are out.
        if input.buffer().is_empty() {
            out.flush()?;
        }
        if !lines::next_line(&mut input, &mut line)? {
            break;
        }
        let asked = input::read(&line, &mut room[..]);
        if let Asked::Section(_) = asked {
            sections = sections.saturating_add(1);
        }
        record.clear();
        answer(&mut record, asked, &room, number, sections)?;
        out.write_all(record.bytes())?;
    }
    out.flush()
}

fn main(rt: HostRuntime) -> io::Result<()> {
    run(&rt)
}
