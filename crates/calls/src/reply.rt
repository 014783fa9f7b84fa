// What a call is given back.
ghost use Rattle.std.specs.Prelude.{◌≡◌};
ghost use Rattle.calls.specs.Numbers.{reply_number, reply_entry};
ghost use Rattle.calls.specs.Replying.{of_section, IsReplyTo};

use super::answer::Answer;
use super::refusal::CallRefusal;
use section::SectionRefusal;

// No `Result`: it has three cases, an answer, a grant and a refusal.
#[derive(Clone, Copy, PartialEq, Eq, Debug)]
pub enum Reply {
    // to a section
    Answered(Answer),
    // to a reading or a choice
    Granted,
    Refused(CallRefusal),
}

impl From<Result<Answer, SectionRefusal>> for Reply {
    ghost from_gives = { λ given reply. reply ≡ of_section given };

    fn from(given: Result<Answer, SectionRefusal>) -> Reply {
        match given {
            Ok(answer) => Reply::Answered(answer),
            Err(e) => Reply::Refused(CallRefusal::from(e)),
        }
    }
}

// To a reading or a choice: granted or refused, and no more.
impl<E: Into<CallRefusal>> From<Result<(), E>> for Reply {
    ghost from_gives = { IsReplyTo E.converts };

    fn from(given: Result<(), E>) -> Reply {
        match given {
            Ok(()) => Reply::Granted,
            Err(e) => Reply::Refused(e.into()),
        }
    }
}

impl Reply {
    // 0 for what is granted, 1 to 4 for an answer, or the number of the refusal.
    pub fn number(self) -> u8
        ensures value { result ≡ reply_number self }
    {
        match self {
            Reply::Answered(answer) => answer.number(),
            Reply::Granted => 0,
            Reply::Refused(e) => e.number(),
        }
    }

    // The number of a location entry, beside 'in force' alone.
    pub fn entry(self) -> Option<usize>
        ensures value { result ≡ reply_entry self }
    {
        match self {
            Reply::Answered(answer) => answer.entry(),
            _ => None,
        }
    }
}
