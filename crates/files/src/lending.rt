// Each member's list, lent.
ghost use Rattle.std.specs.Prelude.{◌≡◌, IfOk, IsOkUnless, map, vec_items};
ghost use Rattle.sheets.specs.Families.{family};
ghost use Rattle.sheets.specs.declared.refusal.Refusal.TheVariants.{NoMemory};

use sheets::Refusal;
use std::alloc::Global;

pub fn lend(heap: Global, lists: &[Vec<u32>]) -> Result<Vec<&[u32]>, Refusal>
    ensures lists { IfOk result (λ v. family v.items ≡ map vec_items lists.now) }
    ensures refused { IsOkUnless result NoMemory }
{
    Ok(lists.iter().map(|list| list.as_slice()).collect(heap)?)
}
