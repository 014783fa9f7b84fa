// Why a receiver refuses a reading, a choice or any call.
ghost use Rattle.std.specs.Prelude.{◌≡◌, Some};
ghost use Rattle.calls.specs.Numbers.{reading_number, choice_number, refusal_number};
ghost use Rattle.calls.specs.Words.{reading_words, choice_words, refusal_words};
ghost use Rattle.calls.specs.declared.refusal.CallRefusal.TheVariants.{Section, Reading, Choice};

use section::SectionRefusal;
use std::fmt;

#[derive(Clone, Copy, PartialEq, Eq, Debug)]
pub enum ReadingRefusal {
    // earlier than the clock
    Earlier,
}

impl ReadingRefusal {
    pub fn number(self) -> u8
        ensures value { result ≡ reading_number self }
    {
        match self {
            ReadingRefusal::Earlier => 31,
        }
    }

    // The cause in a few words.
    pub fn cause(self) -> &'static str
        ensures value { result.now ≡ reading_words self }
    {
        match self {
            ReadingRefusal::Earlier => "clock earlier than before",
        }
    }
}

// By hand, as are the two below: the Display that the kit's `thiserror` derives has no `output`, so the words would be
// promised nowhere.
impl fmt::Display for ReadingRefusal {
    ghost output = { λ e. Some (reading_words e) };

    fn fmt<W: fmt::Write>(&self, f: &mut fmt::Formatter<W>) -> fmt::Result {
        f.write_str(self.cause())
    }
}

#[derive(Clone, Copy, PartialEq, Eq, Debug)]
pub enum ChoiceRefusal {
    // no service has the number
    PastTheList,
}

impl ChoiceRefusal {
    pub fn number(self) -> u8
        ensures value { result ≡ choice_number self }
    {
        match self {
            ChoiceRefusal::PastTheList => 32,
        }
    }

    // The cause in a few words.
    pub fn cause(self) -> &'static str
        ensures value { result.now ≡ choice_words self }
    {
        match self {
            ChoiceRefusal::PastTheList => "choice past the list",
        }
    }
}

impl fmt::Display for ChoiceRefusal {
    ghost output = { λ e. Some (choice_words e) };

    fn fmt<W: fmt::Write>(&self, f: &mut fmt::Formatter<W>) -> fmt::Result {
        f.write_str(self.cause())
    }
}

// Of whichever call was made.
#[derive(Clone, Copy, PartialEq, Eq, Debug)]
pub enum CallRefusal {
    Section(SectionRefusal),
    Reading(ReadingRefusal),
    Choice(ChoiceRefusal),
}

impl From<SectionRefusal> for CallRefusal {
    ghost from_gives = { λ e r. r ≡ Section e };

    fn from(refusal: SectionRefusal) -> CallRefusal {
        CallRefusal::Section(refusal)
    }
}

impl From<ReadingRefusal> for CallRefusal {
    ghost from_gives = { λ e r. r ≡ Reading e };

    fn from(refusal: ReadingRefusal) -> CallRefusal {
        CallRefusal::Reading(refusal)
    }
}

impl From<ChoiceRefusal> for CallRefusal {
    ghost from_gives = { λ e r. r ≡ Choice e };

    fn from(refusal: ChoiceRefusal) -> CallRefusal {
        CallRefusal::Choice(refusal)
    }
}

impl CallRefusal {
    pub fn number(self) -> u8
        ensures value { result ≡ refusal_number self }
    {
        match self {
            CallRefusal::Section(e) => e.number(),
            CallRefusal::Reading(e) => e.number(),
            CallRefusal::Choice(e) => e.number(),
        }
    }

    // The cause in a few words.
    pub fn cause(self) -> &'static str
        ensures value { result.now ≡ refusal_words self }
    {
        match self {
            CallRefusal::Section(e) => e.cause(),
            CallRefusal::Reading(e) => e.cause(),
            CallRefusal::Choice(e) => e.cause(),
        }
    }
}

impl fmt::Display for CallRefusal {
    ghost output = { λ e. Some (refusal_words e) };

    fn fmt<W: fmt::Write>(&self, f: &mut fmt::Formatter<W>) -> fmt::Result {
        f.write_str(self.cause())
    }
}
