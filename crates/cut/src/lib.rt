//! Cutting a block into n fragment records and a check record.
//! `cut` with the counts that the caller names, `cut_standard` with the standard ones; `card_size` plans for the standard ones.
//! No public function asks anything of its caller; on a refusal both buffers hold what they held.
#![tactic(auto)]

mod bodies;
mod fragments;
mod standard;
mod summary;
mod tests;

ghost use Rattle.std.specs.Prelude.{◌≡◌, ℕ, List, Result};
ghost use Rattle.refusal.specs.declared.Refusal.{Refusal};
ghost use Rattle.refusal.specs.Number.{number_in};
ghost use Rattle.cut.specs.Cut as cut;
ghost use Rattle.cut.specs.Standard as standard;

use column::Column;
use record::{CheckHead, WRITTEN_VERSION};
use refusal::Refusal;
pub use standard::{card_size, cut_standard};

/// Writes the n records, then their check record from the bodies where they now stand.
/// The counts, the seed, the number and the buffers each by itself, as the interface to C hands them.
#[tactic(auto, using(crate::proofs::Refusals::passed, crate::proofs::Records::check_is))]
pub fn cut(
    m: u32,
    n: u32,
    seed: u32,
    number: u64,
    block: &[u8],
    fragments: &mut [u8],
    check: &mut [u8],
) -> Result<(), Refusal>
    ensures value { number_in result ≡ cut.cut_number m n seed block.now fragments.old check.old }
    ensures fragments_after { fragments.new ≡ cut.held (number_in result) (cut.fragments m n number block.now) fragments.old }
    ensures check_after { check.new ≡ cut.held (number_in result) (cut.check m n seed number block.now) check.old }
{
    tests::test(m, n, seed, block, fragments, check)?;
    let (m, n) = (m as u8, n as u8);
    fragments::write_fragments(m, n, number, block, fragments);
    let head = CheckHead {
        version: WRITTEN_VERSION,
        number,
        length: block.len() as u32,
        m,
        n,
        seed: Column::from_seed(seed),
    };
    summary::write_check(head, fragments, check);
    Ok(())
}

/// The body of record `index` among records that stand end to end, each with a body of `size` bytes; what of it is there, where they end before.
#[tactic(auto, unfolding(crate::specs::Cut::body_among), using(crate::proofs::Sources::place_fits, record::proofs::Head::head_below))]
pub fn body_among(size: u32, records: &[u8], index: u8) -> &[u8]
    ensures { result.now ≡ cut.body_among size records.now index }
{
    let start = usize::from(index) * record::record_length(WRITTEN_VERSION, size);
    bodies::part(records, start + record::body_place(WRITTEN_VERSION), size)
}

/// What `cut` and `cut_standard` promise fixes their answer.
pub fn one_answer()
    ensures { (m n seed : ℕ) (block fragments check : List ℕ) (a b : Result Unit Refusal) → number_in a ≡ cut.cut_number m n seed block fragments check → number_in b ≡ cut.cut_number m n seed block fragments check → a ≡ b }
{}

/// What `card_size` promises fixes its answer.
pub fn one_card_size()
    ensures { (length : ℕ) (a b : Result ℕ Refusal) → standard.numbers_of a ≡ standard.planned length → standard.numbers_of b ≡ standard.planned length → a ≡ b }
{}
