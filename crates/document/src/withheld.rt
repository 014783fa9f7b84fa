// Why a document is not handed out.
ghost use Rattle.std.specs.Prelude.{◌≡◌, Some};
ghost use Rattle.document.specs.Refusals.{hand_out_number, hand_out_words};

use std::fmt;

// Each of the three calls has refusals of its own, so that none is answered that the call cannot give.
#[derive(Clone, Copy, PartialEq, Eq, Debug)]
pub enum HandOutRefusal {
    // the buffer is shorter than the filled document
    Short,
}

impl HandOutRefusal {
    pub fn number(self) -> u8
        ensures value { result ≡ hand_out_number self }
    {
        match self {
            HandOutRefusal::Short => 26,
        }
    }

    // The cause in a few words.
    pub fn cause(self) -> &'static str
        ensures value { result.now ≡ hand_out_words self }
    {
        match self {
            HandOutRefusal::Short => "buffer too short",
        }
    }
}

// By hand: the Display that the kit's `thiserror` derives has no `output`, so the words would be promised nowhere.
impl fmt::Display for HandOutRefusal {
    ghost output = { λ e. Some (hand_out_words e) };

    fn fmt<W: fmt::Write>(&self, f: &mut fmt::Formatter<W>) -> fmt::Result {
        f.write_str(self.cause())
    }
}
