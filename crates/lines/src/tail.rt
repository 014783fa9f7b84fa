// What stands past the bytes of a line that are kept.
ghost use Rattle.std.specs.Prelude.{◌≡◌, fold};
ghost use Rattle.lines.specs.Tails.{tail_after};

use crate::ends::without_return;
use crate::hex::all_digits;

#[derive(Clone, Copy, PartialEq, Eq, Debug)]
pub enum Tail {
    // hexadecimal digits only, or nothing
    Digits,
    // digits, and then one carriage return
    Returned,
    Other,
}

impl Tail {
    fn after(self, byte: u8) -> Tail
        ensures value { result ≡ tail_after self byte }
    {
        match self {
            Tail::Digits if byte.is_ascii_hexdigit() => Tail::Digits,
            Tail::Digits if byte == b'\r' => Tail::Returned,
            _ => Tail::Other,
        }
    }

    // By one test of them all, not by a step for each: most of what is past the kept bytes is digits to its end, and nothing
    // turns `Other` any more.
    #[tactic(auto, using(crate::proofs::Tailing::other_stays, crate::proofs::Tailing::turned_other, crate::proofs::Tailing::turned_returned, crate::proofs::Tailing::digits_stay))]
    pub(crate) fn after_all(self, bytes: &[u8]) -> Tail
        ensures value { result ≡ fold tail_after self bytes.now }
    {
        let front = without_return(bytes);
        match self {
            Tail::Digits if !all_digits(front) => Tail::Other,
            Tail::Digits if front.len() < bytes.len() => Tail::Returned,
            Tail::Digits => Tail::Digits,
            Tail::Returned => bytes.iter().fold(self, |tail, byte| tail.after(*byte)),
            Tail::Other => Tail::Other,
        }
    }
}
