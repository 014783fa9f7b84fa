// The strings of a field, and whether it keeps the structure.
ghost use Rattle.std.specs.Prelude.{◌≡◌, slice_index, drop};
ghost use Rattle.text.specs.Structure.{structured};

use crate::run::Run;
use crate::spoken::Strings;
use octets::{after, byte_at};

// The strings of a field; one of no bytes counts none.
pub(crate) fn strings_of(field: &[u8]) -> Run<'_, Strings>
    ensures left { result.left ≡ slice_index field.now 0 }
    ensures rest { result.rest.now ≡ drop 1 field.now }
{
    Run::new(byte_at(field, 0), after(field, 1))
}

// The strings come to their end where the field does.
pub fn is_structured(field: &[u8]) -> bool
    ensures value { result ≡ structured field.now }
{
    strings_of(field).size() == after(field, 1).len()
}
