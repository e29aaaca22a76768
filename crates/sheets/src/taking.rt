// Lists that were looked through once, and what lines take from them.
ghost use Rattle.std.specs.Prelude.{◌≡◌, T, IfOk, IfSome, IsOkUnless};
ghost use Rattle.field.specs.Field.{below, all_below};
ghost use Rattle.sheets.specs.Drawing.{DrawnFrom};
ghost use Rattle.sheets.specs.Families.{family};
ghost use Rattle.sheets.specs.Numbers.{lists_in, ListsAs};
ghost use Rattle.sheets.specs.declared.refusal.Refusal.TheVariants.{NoMemory};

use crate::drawing::draw;
use crate::lists::Lists;
use crate::numbers::are_all_below;
use crate::refusal::Refusal;
use std::alloc::Global;

impl<'a> Lists<'a> {
    // The lists, if all their numbers lie below P.
    pub fn new(heap: Global, lists: &[&'a [u32]]) -> Result<Lists<'a>, Refusal>
        ensures { ListsAs (family lists.now) result }
    {
        if !are_all_below(lists) {
            return Err(Refusal::OutOfRange);
        }
        Lists::known(heap, lists)
    }

    // The lists, all of whose numbers are known to lie below P, so that none is looked through.
    pub fn known(heap: Global, lists: &[&'a [u32]]) -> Result<Lists<'a>, Refusal>
        requires { T (all_below (family lists.now)) }
        ensures lists { IfOk result (λ l. lists_in l ≡ family lists.now) }
        ensures refused { IsOkUnless result NoMemory }
    {
        Ok(Lists {
            lists: Vec::from_slice(heap, lists)?,
        })
    }

    // The next `count` numbers of a member's list, or none if there are fewer.
    pub fn draw(&mut self, member: u32, count: usize) -> Option<&'a [u32]>
        ensures drawn { DrawnFrom member count (lists_in self.old) (lists_in self.new) result }
        ensures small { IfSome result (λ r. T (below r.now)) }
    {
        draw(&mut self.lists, member, count)
    }
}
