// Why a section, or a question about its text, is refused.
ghost use Rattle.std.specs.Prelude.{◌≡◌, Some};
ghost use Rattle.section.specs.Refusals.{number, words, question_number, question_words};

use std::fmt;

#[derive(Clone, Copy, PartialEq, Eq, Debug)]
pub enum SectionRefusal {
    // too short, too long, or not as long as the head states
    Length,
    // a fixed value of the head differs
    Head,
    // the register does not end at 0
    CheckWord,
    // the protocol version is not 0
    Version,
    // the stated lengths do not add up to the section
    Layout,
    // seconds, the number of locations, a state, a subdivision or a county is out of its range
    Range,
    // a text field breaks its structure
    Text,
}

#[derive(Clone, Copy, PartialEq, Eq, Debug)]
pub enum QuestionRefusal {
    Section(SectionRefusal),
    // the buffer is shorter than the text
    Short,
}

// The number stays.
impl From<SectionRefusal> for QuestionRefusal {
    ghost from_gives = { λ e r. question_number r ≡ number e };

    fn from(refusal: SectionRefusal) -> QuestionRefusal {
        QuestionRefusal::Section(refusal)
    }
}

impl SectionRefusal {
    pub fn number(self) -> u8
        ensures { result ≡ number self }
    {
        match self {
            SectionRefusal::Length => 10,
            SectionRefusal::Head => 11,
            SectionRefusal::CheckWord => 12,
            SectionRefusal::Version => 13,
            SectionRefusal::Layout => 14,
            SectionRefusal::Range => 15,
            SectionRefusal::Text => 16,
        }
    }

    // The cause in a few words.
    pub fn cause(self) -> &'static str
        ensures { result.now ≡ words self }
    {
        match self {
            SectionRefusal::Length => "wrong length",
            SectionRefusal::Head => "fixed value of the head differs",
            SectionRefusal::CheckWord => "wrong check word",
            SectionRefusal::Version => "unknown protocol version",
            SectionRefusal::Layout => "stated lengths do not add up",
            SectionRefusal::Range => "number out of range",
            SectionRefusal::Text => "broken text field",
        }
    }
}

// By hand, as the other: what a derive writes has no contract, and this text is proved.
impl fmt::Display for SectionRefusal {
    ghost output = { λ e. Some (words e) };

    fn fmt<W: fmt::Write>(&self, f: &mut fmt::Formatter<W>) -> fmt::Result {
        f.write_str(self.cause())
    }
}

impl QuestionRefusal {
    pub fn number(self) -> u8
        ensures { result ≡ question_number self }
    {
        match self {
            QuestionRefusal::Section(e) => e.number(),
            QuestionRefusal::Short => 26,
        }
    }

    pub fn cause(self) -> &'static str
        ensures { result.now ≡ question_words self }
    {
        match self {
            QuestionRefusal::Section(e) => e.cause(),
            QuestionRefusal::Short => "buffer too short",
        }
    }
}

impl fmt::Display for QuestionRefusal {
    ghost output = { λ e. Some (question_words e) };

    fn fmt<W: fmt::Write>(&self, f: &mut fmt::Formatter<W>) -> fmt::Result {
        f.write_str(self.cause())
    }
}
