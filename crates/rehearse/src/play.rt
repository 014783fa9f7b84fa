// The calls of a script, one after another, on any set.
ghost use Rattle.std.specs.Prelude.{◌≡◌, IfSome, OnOk, MatchOption};
ghost use Rattle.std.specs.Option.{option_map};
ghost use Rattle.history.specs.Replies.{event};
ghost use Rattle.receiver.specs.Stood.{WhateverCame, GoesOn, Shows};
ghost use Rattle.rehearse.specs.Calling.{asked_call};
ghost use Rattle.rehearse.specs.Exchanges.{NothingWaits};
ghost use Rattle.rehearse.specs.Told.{name_of, TellsAnswer, TellsWhatIsDue};

use crate::documents::deliver_document;
use crate::exchange::Exchange;
use crate::input::Input;
use crate::printer::Printer;
use calls::Call;
use receiver::{Receiver, rehearse};
use script::{Asked, BeginRefusal};
use sets::Set;
use station::Outset;
use std::io;

// A receiver begins by `rehearse`, which promises the law of whole runs, and without a call: the line of the begin is
// printed before any other.
static NO_CALLS: [Call<'static>; 0] = [];

// What a line asks of the receiver, if it is a call of it. As in Rust there is no `From<u32>` for `usize`.
fn call_of<'a>(input: &'a Input, asked: Asked) -> Option<Call<'a>>
    ensures value { option_map event result ≡ asked_call input.now.room asked }
{
    match asked {
        Asked::Section(size) => Some(Call::Section(input.section(size))),
        Asked::Tick(seconds) => Some(Call::Reading(seconds)),
        Asked::Choose(number) => Some(Call::Choice(number as usize)),
        _ => None,
    }
}

fn name_of(call: &Call<'_>) -> &'static [u8]
    ensures { result.now ≡ name_of (event call.now) }
{
    match call {
        Call::Section(_) => b"section",
        Call::Reading(_) => b"tick",
        Call::Choice(_) => b"choose",
    }
}

// Makes a call, and prints what comes of it.
fn make<S: Set>(receiver: &mut Receiver<S>, call: Call<'_>, printer: &mut Printer)
    ensures stands { GoesOn S.meaning (event call.entry) receiver.old receiver.new }
    ensures the_set_shows_what_the_call_asks { Shows S.meaning (event call.entry) receiver.old receiver.new }
    ensures the_line_is_that_of_the_law { WhateverCame S.meaning receiver.old (λ s h. TellsWhatIsDue s h (event call.entry) printer.old printer.new) }
{
    let name = name_of(&call);
    let reply = receiver.call(call);
    printer.made(name, reply, receiver);
}

// Does what a line asks for, prints what comes of it, and writes nothing yet.
fn take<S: Set>(exchange: &mut Exchange, receiver: &mut Receiver<S>, asked: Asked)
    ensures stands { MatchOption (asked_call exchange.old.input.room asked) (receiver.new ≡ receiver.old) (λ e. GoesOn S.meaning e receiver.old receiver.new) }
    ensures the_set_shows_what_the_call_asks { IfSome (asked_call exchange.old.input.room asked) (λ e. Shows S.meaning e receiver.old receiver.new) }
    ensures the_answer_is_told { TellsAnswer (λ e before after. WhateverCame S.meaning receiver.old (λ s h. TellsWhatIsDue s h e before after)) exchange.old.input.room exchange.old.input.number asked exchange.old.output.printer exchange.new.output.printer }
    ensures same { exchange.new.input ≡ exchange.old.input }
{
    if let Some(call) = call_of(&exchange.input, asked) {
        return make(receiver, call, &mut exchange.output.printer);
    }
    match asked {
        Asked::Nothing => {}
        Asked::Document(size) => {
            deliver_document(&mut exchange.output.printer, exchange.input.section(size))
        }
        _ => exchange.print_not_understood(),
    }
}

// Does what a line asks for, and writes what was printed of it; of an empty line or a comment nothing was.
fn answer<S: Set>(
    exchange: &mut Exchange,
    receiver: &mut Receiver<S>,
    asked: Asked,
) -> io::Result<()>
    ensures stands { MatchOption (asked_call exchange.old.input.room asked) (receiver.new ≡ receiver.old) (λ e. GoesOn S.meaning e receiver.old receiver.new) }
    ensures the_set_shows_what_the_call_asks { IfSome (asked_call exchange.old.input.room asked) (λ e. Shows S.meaning e receiver.old receiver.new) }
    ensures same { exchange.new.input ≡ exchange.old.input }
    ensures written { NothingWaits exchange.old → OnOk result (NothingWaits exchange.new) }
{
    take(exchange, receiver, asked);
    match asked {
        Asked::Nothing => Ok(()),
        _ => exchange.output.write(),
    }
}

// Goes on to the end of the script.
fn go_on<S: Set>(
    exchange: &mut Exchange,
    receiver: &mut Receiver<S>,
    first: Asked,
) -> io::Result<()>
    ensures { OnOk result (NothingWaits exchange.new) }
{
    exchange.output.printer.begun(receiver);
    exchange.output.write()?;
    exchange.answer_all(first, |exchange, asked| answer(exchange, receiver, asked))
}

// A receiver on the set, from its begin to the end of the script.
pub fn play<S: Set + Drop>(
    exchange: &mut Exchange,
    set: S,
    outset: Outset,
    first: Asked,
) -> io::Result<()>
    ensures { OnOk result (NothingWaits exchange.new) }
{
    let mut receiver = rehearse(set, outset, &NO_CALLS, &mut []);
    let result = go_on(exchange, &mut receiver, first);
    let _ = receiver.end();
    result
}

// After a refused begin no line is understood but comments.
pub fn ignore(exchange: &mut Exchange, refusal: BeginRefusal, first: Asked) -> io::Result<()>
    ensures { OnOk result (NothingWaits exchange.new) }
{
    exchange.output.printer.begin_refused(refusal);
    exchange.output.write()?;
    exchange.answer_all(first, |exchange, asked| match asked {
        Asked::Nothing => Ok(()),
        _ => exchange.not_understood(),
    })
}
