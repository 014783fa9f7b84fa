// Why a text question is refused, with the number of each refusal.
ghost use Rattle.std.specs.Prelude.{◌≡◌, Some};
ghost use Rattle.text.specs.Refusals.{number as number_of, words};

use std::fmt;

#[derive(Clone, Copy, PartialEq, Eq, Debug)]
pub enum TextRefusal {
    // the field breaks its structure
    Broken,
    // the buffer is shorter than the text
    Short,
}

impl TextRefusal {
    // The number of the refusal.
    pub fn number(self) -> u8
        ensures value { result ≡ number_of self }
    {
        match self {
            TextRefusal::Broken => 16,
            TextRefusal::Short => 26,
        }
    }

    // The cause in a few words.
    pub fn cause(self) -> &'static str
        ensures value { result.now ≡ words self }
    {
        match self {
            TextRefusal::Broken => "the text field breaks its structure",
            TextRefusal::Short => "the buffer is shorter than the text",
        }
    }
}

// By hand: what a derive writes has no contract, and this text is proved.
impl fmt::Display for TextRefusal {
    ghost output = { λ e. Some (words e) };

    fn fmt<W: fmt::Write>(&self, f: &mut fmt::Formatter<W>) -> fmt::Result {
        f.write_str(self.cause())
    }
}
