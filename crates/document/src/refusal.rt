// Why a document is not gathered.
ghost use Rattle.std.specs.Prelude.{◌≡◌, Some};
ghost use Rattle.document.specs.Refusals.{number as number_of, words as words_of};
ghost use Rattle.document.specs.declared.refusal.DocumentRefusal.TheVariants.{Section};

use section::SectionRefusal;
use std::fmt;

#[derive(Clone, Copy, PartialEq, Eq, Debug)]
pub enum DocumentRefusal {
    // the section itself is refused
    Section(SectionRefusal),
    // the bytes run out inside a descriptor
    Unended,
    // a metadata descriptor breaks its rule
    Broken,
    // there is no metadata descriptor
    Missing,
    // a fragment number occurs twice
    Twice,
    // the numbers are not 1 to their count
    Gap,
    // the work buffer is shorter than the document
    Short,
}

impl From<SectionRefusal> for DocumentRefusal {
    ghost from_gives = { λ e r. r ≡ Section e };

    fn from(refusal: SectionRefusal) -> DocumentRefusal {
        DocumentRefusal::Section(refusal)
    }
}

impl DocumentRefusal {
    pub fn number(self) -> u8
        ensures value { result ≡ number_of self }
    {
        match self {
            DocumentRefusal::Section(e) => e.number(),
            DocumentRefusal::Unended => 20,
            DocumentRefusal::Broken => 21,
            DocumentRefusal::Missing => 22,
            DocumentRefusal::Twice => 23,
            DocumentRefusal::Gap => 24,
            DocumentRefusal::Short => 26,
        }
    }

    // The cause in a few words.
    pub fn cause(self) -> &'static str
        ensures value { result.now ≡ words_of self }
    {
        match self {
            DocumentRefusal::Section(e) => e.cause(),
            DocumentRefusal::Unended => "bytes run out inside a descriptor",
            DocumentRefusal::Broken => "broken metadata descriptor",
            DocumentRefusal::Missing => "no metadata descriptor",
            DocumentRefusal::Twice => "fragment number twice",
            DocumentRefusal::Gap => "fragment number missing",
            DocumentRefusal::Short => "work buffer too short",
        }
    }
}

// By hand: the Display that the kit's `thiserror` derives has no `output`, so the words would be promised nowhere.
impl fmt::Display for DocumentRefusal {
    ghost output = { λ e. Some (words_of e) };

    fn fmt<W: fmt::Write>(&self, f: &mut fmt::Formatter<W>) -> fmt::Result {
        f.write_str(self.cause())
    }
}
