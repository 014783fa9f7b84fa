// Why a document is not filled.
ghost use Rattle.std.specs.Prelude.{◌≡◌, Some};
ghost use Rattle.document.specs.Refusals.{fill_number, fill_words};

use std::fmt;

#[derive(Clone, Copy, PartialEq, Eq, Debug)]
pub enum FillRefusal {
    // more than 1,024 bytes of words
    Words,
    // a buffer is shorter than what it is to hold
    Short,
}

impl FillRefusal {
    pub fn number(self) -> u8
        ensures value { result ≡ fill_number self }
    {
        match self {
            FillRefusal::Words => 25,
            FillRefusal::Short => 26,
        }
    }

    // The cause in a few words.
    pub fn cause(self) -> &'static str
        ensures value { result.now ≡ fill_words self }
    {
        match self {
            FillRefusal::Words => "words too long",
            FillRefusal::Short => "buffer too short",
        }
    }
}

// By hand: the Display that the kit's `thiserror` derives has no `output`, so the words would be promised nowhere.
impl fmt::Display for FillRefusal {
    ghost output = { λ e. Some (fill_words e) };

    fn fmt<W: fmt::Write>(&self, f: &mut fmt::Formatter<W>) -> fmt::Result {
        f.write_str(self.cause())
    }
}
