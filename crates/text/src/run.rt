// Parts of a field that stand one after another.
ghost use Rattle.std.specs.Prelude.{◌≡◌, ℕ, ◌*◌, ◌^◌, ◌<◌, ◌≤◌, List, map};
ghost use Rattle.std.specs.Iterator.{YieldsFirstBy, item_count};
ghost use Rattle.std.specs.List.{sum_by};
ghost use Rattle.text.specs.Structure.{parts};

use octets::after;
use std::marker::PhantomData;

// A kind of parts, each read where it begins; past the end there are zeros.
pub(crate) trait Parts<'a> {
    type Part;

    // what a part states
    ghost Stated: { Type 0 };

    ghost stated: { Self.Part → Stated };

    ghost at: { List ℕ → Stated };

    ghost size: { List ℕ → ℕ };

    // the most bytes that one states
    ghost most: { ℕ };

    // The part at the front.
    fn read(bytes: &'a [u8]) -> Self::Part
        ensures value { stated result ≡ at bytes.now };

    // How many bytes it states that it has.
    fn size_of(bytes: &'a [u8]) -> usize
        ensures value { result ≡ size bytes.now }
        ensures bound { result ≤ most };

    ghost small: { 255 * most < 2 ^ 32 };
}

// So many parts that are still to come.
#[derive(Clone, Copy)]
pub(crate) struct Run<'a, P> {
    pub(crate) left: u8,
    pub(crate) rest: &'a [u8],
    of: PhantomData<P>,
}

impl<'a, P: Parts<'a>> Run<'a, P> {
    pub(crate) fn new(left: u8, rest: &'a [u8]) -> Run<'a, P>
        ensures left { result.left ≡ left }
        ensures rest { result.rest.now ≡ rest.now }
    {
        Run {
            left,
            rest,
            of: PhantomData,
        }
    }

    // How many bytes they state that they have together.
    pub(crate) fn size(self) -> usize
        ensures value { result ≡ sum_by P.size (parts P.size self.entry.left self.entry.rest.now) }
        ensures bound { result ≤ 255 * P.most }
    {
        let mut rest = self.rest;
        let mut size = 0;
        // Only the sizes are asked for: no part is read.
        for done in 0..self.left {
            let part = P::size_of(rest);
            size += part;
            let Some(next) = rest.get(part..) else {
                // past the end each that is left states what one of no bytes does
                return size + usize::from(self.left - done - 1) * P::size_of(&[]);
            };
            rest = next;
        }
        size
    }
}

impl<'a, P: Parts<'a>> Iterator for Run<'a, P> {
    type Item = P::Part;

    ghost next_gives = { YieldsFirstBy P.stated (λ r. map P.at (parts P.size r.left r.rest.now)) };

    ghost remaining = { item_count (λ r. map P.at (parts P.size r.left r.rest.now)) };

    fn next(&mut self) -> Option<P::Part> {
        self.left = self.left.checked_sub(1)?;
        let part = P::read(self.rest);
        self.rest = after(self.rest, P::size_of(self.rest));
        Some(part)
    }
}
