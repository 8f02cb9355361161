//! The standard setting, and what relies on it.
ghost use Rattle.std.specs.Prelude.{◌≡◌};
ghost use Rattle.refusal.specs.Number.{number_in};
ghost use Rattle.cut.specs.Cut as cut;
ghost use Rattle.cut.specs.Standard as standard;

use record::WRITTEN_VERSION;
use refusal::Refusal;

const STANDARD_M: u8 = 8;

const STANDARD_N: u8 = 12;

/// A cut with the standard counts.
pub fn cut_standard(
    seed: u32,
    number: u64,
    block: &[u8],
    fragments: &mut [u8],
    check: &mut [u8],
) -> Result<(), Refusal>
    ensures value { number_in result ≡ cut.cut_number standard.m standard.n seed block.now fragments.old check.old }
    ensures fragments_after { fragments.new ≡ cut.held (number_in result) (cut.fragments standard.m standard.n number block.now) fragments.old }
    ensures check_after { check.new ≡ cut.held (number_in result) (cut.check standard.m standard.n seed number block.now) check.old }
{
    crate::cut(
        u32::from(STANDARD_M),
        u32::from(STANDARD_N),
        seed,
        number,
        block,
        fragments,
        check,
    )
}

/// How many bytes a card has to hold for a block of `length` bytes in the standard setting.
#[tactic(auto, unfolding(crate::specs::Standard::planned), using(code::proofs::Longest::body_length_fits))]
pub fn card_size(length: u64) -> Result<u64, Refusal>
    ensures { standard.numbers_of result ≡ standard.planned length }
{
    if (limits::LONGEST_BLOCK as u64) < length {
        return Err(Refusal::TooLong);
    }
    let size = code::body_length(length as u32, STANDARD_M);
    Ok(record::record_length(WRITTEN_VERSION, size as u32) as u64)
}
