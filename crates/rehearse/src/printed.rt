// The lines that are printed.
ghost use Rattle.std.specs.Prelude.{◌++◌, codes};
ghost use Rattle.script.specs.Begins.{begin_number};
ghost use Rattle.rehearse.specs.Printed.{Prints, field, numbered, sound_of, alert_of, entry_of, caption_of, state_of, answer_of, call_line, begin_line, document_lines, undelivered};

use crate::shown::Shown;
use itoa::Integer;
use records::Record;
use script::BeginRefusal;
use section::EventId;
use sets::Sound;
use std::alloc::AllocError;

fn put_sound(out: &mut Record, sound: Sound) -> Result<(), AllocError>
    ensures { Prints out.old (sound_of sound) result out.new }
{
    match sound {
        Sound::Own => out.text(b" sound=own"),
        Sound::Borrowed(number) => out.field(b" sound=", number),
    }
}

fn put_alert(out: &mut Record, alert: Option<EventId>) -> Result<(), AllocError>
    ensures { Prints out.old (alert_of alert) result out.new }
{
    match alert {
        Some(event) => out.field(b" alert=", event.0),
        None => out.text(b" alert=none"),
    }
}

fn put_entry(out: &mut Record, entry: Option<usize>) -> Result<(), AllocError>
    ensures { Prints out.old (entry_of entry) result out.new }
{
    match entry {
        Some(entry) => out.field(b" entry=", entry),
        None => Ok(()),
    }
}

fn put_caption(out: &mut Record, caption: &[u8]) -> Result<(), AllocError>
    ensures { Prints out.old (caption_of caption.now) result out.new }
{
    out.text(b" caption=")?;
    out.text(caption)?;
    out.text(b"\n")
}

fn put_state(out: &mut Record, shown: &Shown<'_>) -> Result<(), AllocError>
    ensures { Prints out.old (state_of shown.now) result out.new }
{
    out.field(b" home=", shown.home)?;
    out.field(b" screen=", shown.picture.service)?;
    put_sound(out, shown.picture.sound)?;
    put_alert(out, shown.alert)?;
    put_caption(out, shown.picture.caption)
}

// What a call is answered.
#[derive(Clone, Copy, PartialEq, Eq, Debug)]
pub struct Answer<'a> {
    // the call's
    pub name: &'a [u8],
    pub number: u8,
    pub entry: Option<usize>,
}

fn put_answer(out: &mut Record, answer: &Answer<'_>) -> Result<(), AllocError>
    ensures { Prints out.old (answer_of answer.now.name.now answer.now.number answer.now.entry) result out.new }
{
    out.text(b"call=")?;
    out.text(answer.name)?;
    out.field(b" answer=", answer.number)?;
    put_entry(out, answer.entry)
}

// What came of a call.
pub fn put_call(out: &mut Record, answer: &Answer<'_>, shown: &Shown<'_>) -> Result<(), AllocError>
    ensures { Prints out.old (call_line answer.now.name.now answer.now.number answer.now.entry shown.now) result out.new }
{
    put_answer(out, answer)?;
    put_state(out, shown)
}

// What the receiver begins with.
pub fn put_begin(out: &mut Record, shown: &Shown<'_>) -> Result<(), AllocError>
    ensures { Prints out.old (begin_line shown.now) result out.new }
{
    out.text(b"call=begin")?;
    put_state(out, shown)
}

// A line of a key and a number.
fn put_numbered<I: Integer>(out: &mut Record, key: &[u8], number: I) -> Result<(), AllocError>
    ensures { Prints out.old ((key.now ++ I.text number) ++ codes "\n") result out.new }
{
    out.field(key, number)?;
    out.text(b"\n")
}

pub fn put_begin_refused(out: &mut Record, refusal: BeginRefusal) -> Result<(), AllocError>
    ensures { Prints out.old (numbered (codes "call=begin refused=") (begin_number refusal)) result out.new }
{
    put_numbered(out, b"call=begin refused=", refusal.number())
}

pub fn put_not_understood(out: &mut Record, line: u64) -> Result<(), AllocError>
    ensures { Prints out.old (numbered (codes "call=none line=") line) result out.new }
{
    put_numbered(out, b"call=none line=", line)
}

pub fn put_document(out: &mut Record, bytes: &[u8]) -> Result<(), AllocError>
    ensures { Prints out.old (document_lines bytes.now) result out.new }
{
    put_numbered(out, b"call=document bytes=", bytes.len())?;
    out.text(bytes)?;
    out.text(b"\n")
}

// No document, and the call that refused it.
pub fn put_undelivered(out: &mut Record, number: u8, call: &str) -> Result<(), AllocError>
    ensures { Prints out.old (undelivered number call.now) result out.new }
{
    out.field(b"call=document refused=", number)?;
    out.text(b" by=")?;
    out.text(call.as_bytes())?;
    out.text(b"\n")
}
