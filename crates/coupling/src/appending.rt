// Lists that grow, one for each member.
ghost use Rattle.std.specs.Prelude.{◌≡◌, length};
ghost use Rattle.coupling.specs.Growing.{lists as lists_in, EmptyAs, GrownAs};
ghost use Rattle.sheets.specs.Families.{family};

use sheets::Refusal;
use std::alloc::Global;

// An empty list for each of some lists, with room for as much.
pub(crate) fn empty_lists(heap: Global, lists: &[&[u32]]) -> Result<Vec<Vec<u32>>, Refusal>
    ensures { EmptyAs (length lists.now) result }
{
    let mut empty = Vec::with_capacity(heap, lists.len())?;
    for list in lists {
        empty.push(Vec::with_capacity(heap, list.len())?)?;
    }
    Ok(empty)
}

// Appends to each list what stands at its place, if anything does.
pub(crate) fn append_each(lists: &mut Vec<Vec<u32>>, more: &[&[u32]]) -> Result<(), Refusal>
    ensures { GrownAs (lists_in lists.old) (family more.now) (lists_in lists.new) result }
{
    for (k, list) in lists.iter_mut().enumerate() {
        if let Some(words) = more.get(k) {
            list.extend_from_slice(words)?;
        }
    }
    Ok(())
}
