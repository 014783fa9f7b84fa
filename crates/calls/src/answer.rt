// What is answered to a section that breaks no rule.
ghost use Rattle.std.specs.Prelude.{◌≡◌};
ghost use Rattle.calls.specs.Numbers.{answer_number, answer_entry};

#[derive(Clone, Copy, PartialEq, Eq, Debug)]
pub enum Answer {
    // its sequence number is that of the well-formed section before it
    Repeat,
    // its priority is 0
    Test,
    // no location entry names the place
    Elsewhere,
    // its alert is in force; the number of a location entry that names the place
    InForce(usize),
}

impl Answer {
    pub fn number(self) -> u8
        ensures value { result ≡ answer_number self }
    {
        match self {
            Answer::Repeat => 1,
            Answer::Test => 2,
            Answer::Elsewhere => 3,
            Answer::InForce(_) => 4,
        }
    }

    // The number of a location entry, beside 'in force' alone.
    pub fn entry(self) -> Option<usize>
        ensures value { result ≡ answer_entry self }
    {
        match self {
            Answer::InForce(entry) => Some(entry),
            _ => None,
        }
    }
}
