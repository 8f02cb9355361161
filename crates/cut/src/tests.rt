//! When a cut is refused.
ghost use Rattle.std.specs.Prelude.{◌≡◌};
ghost use Rattle.refusal.specs.Number.{number_in};
ghost use Rattle.cut.specs.Cut as cut;

use record::WRITTEN_VERSION;
use refusal::Refusal;

// The first of 1, 2, 3 and 4 that applies.
// The counts, the seed and the buffers each by itself, as the interface to C hands them.
#[tactic(auto, unfolding(crate::specs::Cut::cut_number, crate::specs::Cut::buffers_fit), using(record::proofs::Counts::counted, code::proofs::Longest::body_length_fits, crate::proofs::Sources::place_fits, record::proofs::Head::head_below))]
pub(crate) fn test(
    m: u32,
    n: u32,
    seed: u32,
    block: &[u8],
    fragments: &[u8],
    check: &[u8],
) -> Result<(), Refusal>
    ensures { number_in result ≡ cut.cut_number m n seed block.now fragments.now check.now }
{
    if !record::counts_fit(m, n) {
        return Err(Refusal::CountsOutOfBounds);
    }
    if limits::LONGEST_BLOCK < block.len() {
        return Err(Refusal::TooLong);
    }
    if limits::LARGEST_SEED < seed {
        return Err(Refusal::SeedTooLarge);
    }
    let size = code::body_length(block.len() as u32, m as u8);
    if fragments.len() != (n as usize) * record::record_length(WRITTEN_VERSION, size as u32) {
        return Err(Refusal::WrongLength);
    }
    if check.len() != record::check_length(WRITTEN_VERSION, m as u8, n as u8) {
        return Err(Refusal::WrongLength);
    }
    Ok(())
}
