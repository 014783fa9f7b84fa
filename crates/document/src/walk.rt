// The walk over the descriptor bytes.
ghost use Rattle.std.specs.Prelude.{◌≡◌, ◌≤◌, [], true, false, length, IfSome, MatchOption};
ghost use Rattle.document.specs.Descriptors.{walked, ended};
ghost use Rattle.document.specs.Tables.{Tabled};

use crate::slots::Gathering;

// The tag of a metadata descriptor.
const METADATA: u8 = 3;

// Gathers the fragments of the metadata descriptors, unless the bytes run out inside a descriptor.
pub(crate) fn walk(area: &[u8], gathering: &mut Gathering) -> Option<()>
    requires brief { length area.now ≤ 1023 }
    requires fresh { Tabled area.now [] gathering.old }
    ensures cases { MatchOption result (ended (walked area.now) ≡ false) (λ _. ended (walked area.now) ≡ true) }
    ensures holds { IfSome result (λ _. Tabled area.now (walked area.now).whole gathering.new) }
{
    let mut rest = area;
    while let [tag, size, after @ ..] = rest {
        let (body, next) = after.split_at_checked(usize::from(*size))?;
        if *tag == METADATA {
            gathering.meet(area.len() - after.len(), body);
        }
        rest = next;
    }
    rest.is_empty().then_some(())
}
