// Why a document is not delivered, and by which of the three calls.
ghost use Rattle.std.specs.Prelude.{◌≡◌, Some};
ghost use Rattle.document.specs.Refusals.{delivery_number, delivery_words, call_of};
ghost use Rattle.document.specs.declared.undelivered.Undelivered.TheVariants.{Gather, Fill, HandOut};

use crate::moved::Unfilled;
use crate::refusal::DocumentRefusal;
use crate::withheld::HandOutRefusal;
use std::fmt;

// Moved, since a refused filling has the gathered document in it.
#[derive(Drop)]
pub enum Undelivered {
    // the document is not gathered
    Gather(DocumentRefusal),
    // it is not filled, and comes back as it was gathered
    Fill(Unfilled),
    // it is not handed out
    HandOut(HandOutRefusal),
}

impl From<DocumentRefusal> for Undelivered {
    ghost from_gives = { λ e r. r ≡ Gather e };

    fn from(refusal: DocumentRefusal) -> Undelivered {
        Undelivered::Gather(refusal)
    }
}

impl From<Unfilled> for Undelivered {
    ghost from_gives = { λ u r. r ≡ Fill u };

    fn from(unfilled: Unfilled) -> Undelivered {
        Undelivered::Fill(unfilled)
    }
}

impl From<HandOutRefusal> for Undelivered {
    ghost from_gives = { λ e r. r ≡ HandOut e };

    fn from(refusal: HandOutRefusal) -> Undelivered {
        Undelivered::HandOut(refusal)
    }
}

impl Undelivered {
    pub fn number(&self) -> u8
        ensures value { result ≡ delivery_number self.now }
    {
        match self {
            Undelivered::Gather(e) => e.number(),
            Undelivered::Fill(e) => e.refusal.number(),
            Undelivered::HandOut(e) => e.number(),
        }
    }

    // The cause in a few words.
    pub fn cause(&self) -> &'static str
        ensures value { result.now ≡ delivery_words self.now }
    {
        match self {
            Undelivered::Gather(e) => e.cause(),
            Undelivered::Fill(e) => e.refusal.cause(),
            Undelivered::HandOut(e) => e.cause(),
        }
    }

    // The call that refused.
    pub fn call(&self) -> &'static str
        ensures value { result.now ≡ call_of self.now }
    {
        match self {
            Undelivered::Gather(_) => "gather",
            Undelivered::Fill(_) => "fill",
            Undelivered::HandOut(_) => "hand out",
        }
    }
}

// By hand: the Display that the kit's `thiserror` derives has no `output`, so the words would be promised nowhere.
impl fmt::Display for Undelivered {
    ghost output = { λ e. Some (delivery_words e) };

    fn fmt<W: fmt::Write>(&self, f: &mut fmt::Formatter<W>) -> fmt::Result {
        f.write_str(self.cause())
    }
}
