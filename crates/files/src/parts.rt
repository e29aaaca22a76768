// Parts of a circle's file: a count and as many words. The count is trusted only where the bytes are there.
ghost use Rattle.std.specs.Prelude.{◌≡◌, ◌<◌, length, Some, None, MatchResult};
ghost use Rattle.sheets.specs.declared.refusal.Refusal.TheVariants.{Malformed};
ghost use Rattle.files.specs.Circles.{cut as cut_of};

use sheets::Refusal;

// The bytes of as many words as the count in front says, and those after them.
pub(crate) fn cut(bytes: &[u8]) -> Result<(&[u8], &[u8]), Refusal>
    ensures { MatchResult result (λ x. cut_of bytes.now ≡ Some (record { what = x.0.now; rest = x.1.now })) (λ e. (e ≡ Malformed) × (cut_of bytes.now ≡ None)) }
{
    let (count, rest) = bytes.split_first_chunk().ok_or(Refusal::Malformed)?;
    let len = u32::from_be_bytes(*count) as usize * 4;
    rest.split_at_checked(len).ok_or(Refusal::Malformed)
}

// That nothing stands after the last part.
pub(crate) fn check_end(rest: &[u8]) -> Result<(), Refusal>
    ensures { MatchResult result (λ _. length rest.now ≡ 0) (λ e. (e ≡ Malformed) × (0 < length rest.now)) }
{
    if !rest.is_empty() {
        return Err(Refusal::Malformed);
    }
    Ok(())
}
