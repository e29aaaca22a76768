// Taking the next numbers of a member's list: what is not used yet is the part that starts where the used ones end.
ghost use Rattle.std.specs.Prelude.{◌≡◌};
ghost use Rattle.sheets.specs.Drawing.{DrawnFrom};
ghost use Rattle.sheets.specs.Families.{family};

// The next `count` numbers of a member's list, or none if there are fewer. Who has no list has an empty one.
pub fn draw<'a>(lists: &mut [&'a [u32]], member: u32, count: usize) -> Option<&'a [u32]>
    ensures { DrawnFrom member count (family lists.old) (family lists.new) result }
{
    if member == 0 || member as usize > lists.len() {
        return if count == 0 { Some(&[]) } else { None };
    }
    let place = member as usize - 1;
    let (drawn, rest) = lists[place].split_at_checked(count)?;
    lists[place] = rest;
    Some(drawn)
}
