//! When a join is refused before it looks at the records.
ghost use Rattle.std.specs.Prelude.{◌≡◌, cond, eqb};
ghost use Rattle.refusal.specs.Number.{number_in};
ghost use Rattle.record.specs.Heads as heads;
ghost use Rattle.join.specs.Join as joining;

use refusal::Refusal;

// The first of 5, 6, 7 and 4 that applies.
pub(crate) fn test(wanted: u64, check: &[u8], records: &[u8], out: &[u8]) -> Result<(), Refusal>
    ensures { number_in result ≡ cond (heads.check_marked check.now) (cond (heads.check_shaped check.now) (cond (eqb (heads.check_head_of check.now).number wanted) (cond (joining.lengths_fit check.now records.now out.now) 0 4) 7) 6) 5 }
{
    if !record::check_marked(check) {
        return Err(Refusal::CheckMark);
    }
    if !record::check_shaped(check) {
        return Err(Refusal::CheckShape);
    }
    let head = record::read_check(check);
    if head.number != wanted {
        return Err(Refusal::OtherBlock);
    }
    if !lengths_fit(check, records, out) {
        return Err(Refusal::WrongLength);
    }
    Ok(())
}

// 4 is given unless this holds.
#[tactic(auto, unfolding(crate::specs::Join::lengths_fit, gather::specs::Gather::count_of), using(gather::proofs::Places::some_stride))]
fn lengths_fit(check: &[u8], records: &[u8], out: &[u8]) -> bool
    ensures { result ≡ joining.lengths_fit check.now records.now out.now }
{
    let head = record::read_check(check);
    let stride = gather::stride(check);
    out.len() == head.length as usize
        && records.len() % stride == 0
        && records.len() / stride <= usize::from(head.n)
}
