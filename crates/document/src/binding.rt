// What a gathering lacks, and its fragments bound together in rising number.
ghost use Rattle.std.specs.Prelude.{◌≡◌, ℕ, ◌+◌, ◌*◌, ◌≤◌, ◌++◌, List, length, drop, slice_index_or, sum_by};
ghost use Rattle.std.specs.List.{list_all};
ghost use Rattle.std.specs.Option.{is_some};
ghost use Rattle.document.specs.Descriptors.{Descriptor};
ghost use Rattle.document.specs.Tables.{empty, Tabled, Binds, Inside, placed_bytes, placed_len, pieces};

use crate::escape::put;
use crate::refusal::DocumentRefusal;
use crate::slots::{Gathering, Slot};

impl Gathering {
    // The fragments in rising number, or the first test that they fail.
    pub(crate) fn bound(&self) -> Result<&[Slot], DocumentRefusal>
        ensures binds { (area : List ℕ) (ds : List Descriptor) → Tabled area ds self.now → Binds area ds result }
    {
        if self.broken {
            return Err(DocumentRefusal::Broken);
        }
        if self.count == 0 {
            return Err(DocumentRefusal::Missing);
        }
        if self.twice {
            return Err(DocumentRefusal::Twice);
        }
        let slots = self
            .slots
            .get(1..=usize::from(self.count))
            .ok_or(DocumentRefusal::Gap)?;
        if is_full(slots) {
            Ok(slots)
        } else {
            Err(DocumentRefusal::Gap)
        }
    }
}

// Whether each slot has a fragment.
fn is_full(slots: &[Slot]) -> bool
    ensures value { result ≡ list_all (λ s. is_some s.fragment) slots.now }
{
    slots.iter().all(|slot| slot.fragment.is_some())
}

impl Slot {
    // How many bytes its fragment has, if it has one.
    fn len(self) -> usize
        ensures value { result ≡ placed_len self }
    {
        match self.fragment {
            Some(place) => usize::from(place.len),
            None => 0,
        }
    }

    // The bytes of its fragment, if it has one.
    fn bytes<'a>(self, area: &'a [u8]) -> &'a [u8]
        requires { Inside area.now self }
        ensures value { result.now ≡ placed_bytes area.now self }
    {
        match self.fragment {
            Some(place) => {
                let start = usize::from(place.start);
                &area[start..start + usize::from(place.len)]
            }
            None => &[],
        }
    }
}

// How many bytes the fragments have together.
pub(crate) fn total(slots: &[Slot]) -> usize
    requires { sum_by placed_len slots.now ≤ 65535 }
    ensures value { result ≡ sum_by placed_len slots.now }
{
    slots.iter().map(|slot| slot.len()).sum()
}

// Writes the fragments, one after another, to the front of `work`. The loop of `put_escaped` over parts of another
// kind: a function over an iterator of parts would have to say in its clause what that yields.
pub(crate) fn write(area: &[u8], slots: &[Slot], work: &mut [u8])
    requires inside { (k : ℕ) → Inside area.now (slice_index_or slots.now k empty) }
    requires room { length (pieces area.now slots.now) ≤ length work.old }
    ensures after { work.new ≡ pieces area.now slots.now ++ drop (length (pieces area.now slots.now)) work.old }
{
    let mut done: usize = 0;
    for slot in slots {
        done = put(work, done, slot.bytes(area));
    }
}
