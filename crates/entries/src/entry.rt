// One search over the entries of every kind.
ghost use Rattle.std.specs.Prelude.{◌≡◌, ℕ, ◌<◌, Bool, List};
ghost use Rattle.entries.specs.Finding.{Finds};

// A kind of entry, all of one size, and what its entries name.
pub trait Entry {
    type Thing;

    ghost width: { ℕ };

    ghost named: { List ℕ → Self.Thing → Bool };

    // The bytes of an entry.
    fn size() -> usize
        ensures value { result ≡ width };

    // Whether the entry names the thing; past its end an entry counts as 0.
    fn names(entry: &[u8], thing: &Self::Thing) -> bool
        ensures value { result ≡ named entry.now thing.now };

    ghost some: { 0 < width };
}

// The number of an entry that names the thing, counted from 0. Bytes past the last whole entry are no entry.
pub fn search<E: Entry>(entries: &[u8], thing: &E::Thing) -> Option<usize>
    ensures cases { Finds E.width E.named entries.now thing.now result }
{
    entries
        .chunks_exact(E::size())
        .position(|entry| E::names(entry, thing))
}
