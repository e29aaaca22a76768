// Whether numbers lie below P.
ghost use Rattle.std.specs.Prelude.{◌≡◌, map};
ghost use Rattle.field.specs.Field.{below, all_below};
ghost use Rattle.sheets.specs.Families.{family};

use std::convert::AsSlice;

pub fn are_below(numbers: &[u32]) -> bool
    ensures { result ≡ below numbers.now }
{
    numbers.iter().all(|number| *number < field::P)
}

pub fn are_all_below(lists: &[&[u32]]) -> bool
    ensures { result ≡ all_below (family lists.now) }
{
    each_below(lists)
}

// The same of lists that are lent or owned.
pub fn each_below<L: AsSlice<u32>>(lists: &[L]) -> bool
    ensures { result ≡ all_below (map L.items lists.now) }
{
    lists.iter().all(|list| are_below(list.as_slice()))
}
