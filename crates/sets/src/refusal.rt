// Why a set refuses a call, and why a table makes no set.
ghost use Rattle.std.specs.Prelude.{◌≡◌, Some};
ghost use Rattle.sets.specs.Refusals.{refusal_number, refusal_words, table_number, table_words};

use octets::Full;
use std::fmt;

#[derive(Clone, Copy, PartialEq, Eq, Debug)]
pub enum SetRefusal {
    // no service has the number
    PastTheList,
    // the service's sound cannot be heard apart from its picture
    NotApart,
    // more than 1,024 bytes
    CaptionTooLong,
}

impl SetRefusal {
    // The number of the refusal.
    pub fn number(self) -> u8
        ensures value { result ≡ refusal_number self }
    {
        match self {
            SetRefusal::PastTheList => 61,
            SetRefusal::NotApart => 62,
            SetRefusal::CaptionTooLong => 63,
        }
    }

    // The cause in a few words.
    pub fn cause(self) -> &'static str
        ensures value { result.now ≡ refusal_words self }
    {
        match self {
            SetRefusal::PastTheList => "number past the list",
            SetRefusal::NotApart => "sound not apart",
            SetRefusal::CaptionTooLong => "caption too long",
        }
    }
}

// By hand, as the other: what a derive writes has no contract, and this text is proved.
impl fmt::Display for SetRefusal {
    ghost output = { λ e. Some (refusal_words e) };

    fn fmt<W: fmt::Write>(&self, f: &mut fmt::Formatter<W>) -> fmt::Result {
        f.write_str(self.cause())
    }
}

// More bytes than a caption has room for.
impl From<Full> for SetRefusal {
    ghost from_gives = { λ _ e. refusal_number e ≡ 63 };

    fn from(_full: Full) -> SetRefusal {
        SetRefusal::CaptionTooLong
    }
}

#[derive(Clone, Copy, PartialEq, Eq, Debug)]
pub enum TableRefusal {
    // no service, or more than 256
    Size,
    // a major or minor number over 1,023
    ChannelNumber,
    // the start is not in the table
    Start,
}

impl TableRefusal {
    // The number of the refusal.
    pub fn number(self) -> u8
        ensures value { result ≡ table_number self }
    {
        match self {
            TableRefusal::Size => 41,
            TableRefusal::ChannelNumber => 42,
            TableRefusal::Start => 43,
        }
    }

    // The cause in a few words.
    pub fn cause(self) -> &'static str
        ensures value { result.now ≡ table_words self }
    {
        match self {
            TableRefusal::Size => "no service or too many",
            TableRefusal::ChannelNumber => "channel number too large",
            TableRefusal::Start => "start not in the table",
        }
    }
}

impl fmt::Display for TableRefusal {
    ghost output = { λ e. Some (table_words e) };

    fn fmt<W: fmt::Write>(&self, f: &mut fmt::Formatter<W>) -> fmt::Result {
        f.write_str(self.cause())
    }
}
