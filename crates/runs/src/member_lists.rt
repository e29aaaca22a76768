// One list for each member.
ghost use Rattle.std.specs.Prelude.{◌≡◌};
ghost use Rattle.sheets.specs.Families.{family, of};

// A member's list, which is empty for who has none.
pub fn list_of<'a>(lists: &[&'a [u32]], member: u32) -> &'a [u32]
    ensures { result.now ≡ of (family lists.now) member }
{
    if member == 0 || member as usize > lists.len() {
        return &[];
    }
    lists[member as usize - 1]
}
