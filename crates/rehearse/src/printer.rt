// Prints a line for each call that the receiver is given.
ghost use Rattle.std.specs.Prelude.{◌≡◌, [], codes, Result};
ghost use Rattle.std.specs.Fn.{FnOnceReturnsAtMut};
ghost use Rattle.std.specs.Result.{result_and};
ghost use Rattle.std.specs.declared.alloc.AllocError.{AllocError};
ghost use Rattle.document.specs.Refusals.{delivery_number, call_of};
ghost use Rattle.calls.specs.Verdicts.{verdict_of};
ghost use Rattle.receiver.specs.Stood.{WhateverCame};
ghost use Rattle.script.specs.Begins.{begin_number};
ghost use Rattle.rehearse.specs.Printed.{begin_line, call_line, numbered, document_lines, undelivered};
ghost use Rattle.rehearse.specs.Told.{Empty, Tells, TellsBegin, TellsCall};

use crate::printed::{
    Answer, put_begin, put_begin_refused, put_call, put_document, put_not_understood,
    put_undelivered,
};
use crate::shown::{Shown, shown_by};
use calls::Reply;
use document::Undelivered;
use receiver::Receiver;
use records::Record;
use script::BeginRefusal;
use sets::Set;
use std::alloc::{AllocError, Global};

// What was printed and is not written yet, and whether there was memory for all of it.
#[derive(Drop)]
pub struct Printer {
    record: Record,
    outcome: Result<(), AllocError>,
}

impl Printer {
    pub fn new(heap: Global) -> Printer
        ensures { Empty result }
    {
        Printer {
            record: Record::new(heap),
            outcome: Ok(()),
        }
    }

    pub fn bytes(&self) -> &[u8]
        ensures { result.now ≡ self.now.record }
    {
        self.record.bytes()
    }

    pub fn clear(&mut self)
        ensures record { self.new.record ≡ [] }
        ensures same { self.new.outcome ≡ self.old.outcome }
    {
        self.record.clear();
    }

    // Whether there was memory for all that was printed.
    pub fn outcome(&self) -> Result<(), AllocError>
        ensures { result ≡ self.now.outcome }
    {
        self.outcome
    }

    // A fault is kept until the next write, which answers it: nothing is written then.
    fn keep(&mut self, printed: Result<(), AllocError>)
        ensures outcome { self.new.outcome ≡ result_and self.old.outcome printed }
        ensures same { self.new.record ≡ self.old.record }
    {
        self.outcome = self.outcome.and(printed);
    }

    fn print<F: FnOnce(&mut Record) -> Result<(), AllocError>>(&mut self, put: F)
        requires { F.IsAlwaysCallable put }
        ensures { (r : Result (Unit {0}) AllocError) × FnOnceReturnsAtMut F.FnOnce put self.old.record r self.new.record × (self.new.outcome ≡ result_and self.old.outcome r) }
    {
        let printed = put(&mut self.record);
        self.outcome = self.outcome.and(printed);
    }

    // This and the next by hand: of a closure that holds a `Shown`, which holds a reference, a proof learns nothing.
    fn begins(&mut self, shown: &Shown<'_>)
        ensures { Tells self.old self.new (begin_line shown.now) }
    {
        let result = put_begin(&mut self.record, shown);
        self.keep(result);
    }

    fn called(&mut self, answer: &Answer<'_>, shown: &Shown<'_>)
        ensures { Tells self.old self.new (call_line answer.now.name.now answer.now.number answer.now.entry shown.now) }
    {
        let result = put_call(&mut self.record, answer, shown);
        self.keep(result);
    }

    // What a receiver begins with.
    pub fn begun<S: Set>(&mut self, receiver: &Receiver<S>)
        ensures { WhateverCame S.meaning receiver.now (λ s h. TellsBegin s h self.old self.new) }
    {
        self.begins(&shown_by(receiver));
    }

    // What came of a call, with the receiver after it.
    pub fn made<S: Set>(&mut self, name: &[u8], reply: Reply, receiver: &Receiver<S>)
        ensures { WhateverCame S.meaning receiver.now (λ s h. TellsCall s h name.now (verdict_of reply) self.old self.new) }
    {
        let shown = shown_by(receiver);
        let answer = Answer {
            name,
            number: reply.number(),
            entry: reply.entry(),
        };
        self.called(&answer, &shown);
    }

    pub fn begin_refused(&mut self, refusal: BeginRefusal)
        ensures { Tells self.old self.new (numbered (codes "call=begin refused=") (begin_number refusal)) }
    {
        self.print(|out| put_begin_refused(out, refusal));
    }

    pub fn not_understood(&mut self, line: u64)
        ensures { Tells self.old self.new (numbered (codes "call=none line=") line) }
    {
        self.print(|out| put_not_understood(out, line));
    }

    pub fn document(&mut self, bytes: &[u8])
        ensures { Tells self.old self.new (document_lines bytes.now) }
    {
        self.print(|out| put_document(out, bytes));
    }

    pub fn undelivered(&mut self, refusal: &Undelivered)
        ensures { Tells self.old self.new (undelivered (delivery_number refusal.now) (call_of refusal.now)) }
    {
        let (number, call) = (refusal.number(), refusal.call());
        self.print(|out| put_undelivered(out, number, call));
    }
}
