// The table of a gathering: a slot for each fragment number.
ghost use Rattle.std.specs.Prelude.{◌≡◌, ℕ, ◌+◌, ◌<◌, ◌≤◌, [], ◌∷◌, ◌++◌, List, length, take, drop};
ghost use Rattle.document.specs.Descriptors.{Descriptor};
ghost use Rattle.document.specs.Fragments.{breaks};
ghost use Rattle.document.specs.Tables.{Tabled};

// Where a fragment stands in the descriptor bytes. Numbers, since with slices the table would be four times as large,
// and each call pays for its size.
#[derive(Clone, Copy)]
pub(crate) struct Place {
    pub(crate) start: u16,
    pub(crate) len: u8,
}

// Of one fragment number.
#[derive(Clone, Copy)]
pub(crate) struct Slot {
    // the first fragment of that number, where one was met
    pub(crate) fragment: Option<Place>,
}

#[derive(Drop)]
pub(crate) struct Gathering {
    // one for each number; in place, since no heap is asked for
    pub(crate) slots: [Slot; 256],
    // how many fragments were met
    pub(crate) count: u16,
    // Two flags, since either may stand alone: one field for the graver fault would have to say their order twice.
    // a metadata descriptor broke its rule
    pub(crate) broken: bool,
    // a number was met again
    pub(crate) twice: bool,
}

// Whether the bytes of a metadata descriptor break its rule.
fn is_broken(body: &[u8]) -> bool
    ensures value { result ≡ breaks body.now }
{
    body.len() < 3 || body[0] == 0 || usize::from(body[1]) != body.len() - 2
}

impl Gathering {
    pub(crate) fn new() -> Gathering
        ensures holds { (area : List ℕ) → Tabled area [] result }
    {
        Gathering {
            slots: [Slot { fragment: None }; 256],
            count: 0,
            broken: false,
            twice: false,
        }
    }

    // Takes in the bytes of a metadata descriptor, which stand at `at`. The `requires` stay: no type holds the length of
    // a body that is given, nor where it stands, nor how many were met.
    pub(crate) fn meet(&mut self, at: usize, body: &[u8])
        requires near { at < 1024 }
        requires brief { length body.now < 256 }
        requires room { self.old.count < 1024 }
        ensures holds { (area : List ℕ) (ds : List Descriptor) → body.now ≡ take (length body.now) (drop at area) → Tabled area ds self.old → Tabled area (ds ++ record { tag = 3; body = body.now } ∷ []) self.new }
        ensures count { self.new.count ≤ self.old.count + 1 }
    {
        if is_broken(body) {
            self.broken = true;
            return;
        }
        self.count += 1;
        let slot = &mut self.slots[usize::from(body[0])];
        if slot.fragment.is_none() {
            let start = (at + 2) as u16;
            let len = (body.len() - 2) as u8;
            slot.fragment = Some(Place { start, len });
        } else {
            self.twice = true;
        }
    }
}
