// The lists that lines take from.
ghost use Rattle.std.specs.Prelude.{◌≡◌, T};
ghost use Rattle.field.specs.Field.{all_below};
ghost use Rattle.sheets.specs.Families.{family};

// One list for each member, of numbers below P: member i's is at place i - 1.
#[derive(Drop)]
pub struct Lists<'a> {
    pub lists: Vec<&'a [u32]>,
    ghost small: { T (all_below (family lists.items)) },
}
