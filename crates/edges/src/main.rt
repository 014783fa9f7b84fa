// Tries published check values, the examples of the public standard and the edges of entries, and counts what is wrong.
#![tactic(auto)]

mod examples;
mod naming;
mod tally;

use section::Section;
use std::io;
use std::io::{BufWriter, Write};
use tally::Tally;

// What an example's section has to say.
#[derive(Clone, Copy)]
struct Example {
    name: &'static str,
    section: &'static [u8],
    event_id: u32,
    sequence: u32,
    seconds: u32,
    words: &'static [u8],
}

fn check_values<W: Write + Drop>(tally: &mut Tally<W>) -> io::Result<()> {
    let published = checkword::check_word(b"123456789");
    tally.number("check word of 123456789", 0x0376_E6E7, published)?;
    tally.number(
        "check word of nothing",
        0xFFFF_FFFF,
        checkword::check_word(&[]),
    )?;
    tally.number(
        "check word of a whole section",
        0,
        checkword::check_word(examples::HWW),
    )
}

fn try_example<W: Write + Drop>(tally: &mut Tally<W>, e: Example) -> io::Result<()> {
    let section = Section::read(e.section);
    let refusal = section
        .refusal()
        .map_or(0, |refusal| u32::from(refusal.number()));
    tally.number(e.name, 0, refusal)?;
    if let Ok(fields) = section.fields() {
        tally.number("  event ID", e.event_id, u32::from(fields.event_id.0))?;
        tally.number(
            "  sequence number",
            e.sequence,
            u32::from(fields.sequence.0),
        )?;
        tally.number(
            "  seconds remaining",
            e.seconds,
            u32::from(fields.seconds.0),
        )?;
    }
    if let Ok(code) = section.event_code() {
        tally.bytes("  event code", e.name.as_bytes(), code.bytes)?;
    }
    match section.text() {
        Ok(text) => tally.bytes("  text", e.words, text.as_bytes()),
        Err(_) => Ok(()),
    }
}

fn warnings<W: Write + Drop>(tally: &mut Tally<W>) -> io::Result<()> {
    try_example(
        tally,
        Example {
            name: "HWW",
            section: examples::HWW,
            event_id: 15,
            sequence: 10,
            seconds: 60,
            words: b"High Wind Warning",
        },
    )?;
    try_example(
        tally,
        Example {
            name: "EAN",
            section: examples::EAN,
            event_id: 16,
            sequence: 13,
            seconds: 0,
            words: b"Emergency Action Notification",
        },
    )
}

fn cut_short<W: Write + Drop>(tally: &mut Tally<W>) -> io::Result<()> {
    try_example(
        tally,
        Example {
            name: "CAE",
            section: examples::CAE,
            event_id: 18,
            sequence: 12,
            seconds: 110,
            words: b"Child Abduction Emergency",
        },
    )?;
    try_example(
        tally,
        Example {
            name: "ABT",
            section: examples::ABT,
            event_id: 97,
            sequence: 7,
            seconds: 3,
            words: b"",
        },
    )
}

fn run(rt: &HostRuntime) -> io::Result<()> {
    let mut tally = Tally::new(BufWriter::new(rt.alloc(), rt.stdout())?);
    check_values(&mut tally)?;
    warnings(&mut tally)?;
    cut_short(&mut tally)?;
    naming::all(&mut tally)?;
    tally.end()
}

fn main(rt: HostRuntime) -> io::Result<()> {
    run(&rt)
}
