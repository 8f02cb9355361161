//! Joining a block: `join` gives it back from any m of its fragment records, whatever lies between them.
//! No public function asks anything of its caller; on a refusal the output holds what it held.
#![tactic(auto)]

mod block;
mod regain;
mod sources;
mod tests;

ghost use Rattle.std.specs.Prelude.{◌≡◌, true, cond, eqb, length, take, drop, Result};
ghost use Rattle.refusal.specs.declared.Counts.{Counts};
ghost use Rattle.refusal.specs.declared.Refusal.{Refusal};
ghost use Rattle.record.specs.Heads.{check_head_of, check_marked, check_shaped};
ghost use Rattle.join.specs.Join as joining;

use gather::Used;
use refusal::{Counts, Refusal};
use sources::Sources;

/// Refused by 5, 6, 7, 4, 13 or 14, the first that applies; with 13, 14 and where it is done, how many records were read, and how many
/// different indexes were accepted.
pub fn join(wanted: u64, check: &[u8], records: &[u8], out: &mut [u8]) -> Result<Counts, Refusal>
    ensures value { joining.numbers_of result ≡ joining.join_answer wanted check.now records.now out.old }
    ensures out_after { out.new ≡ joining.join_output wanted check.now records.now out.old }
{
    tests::test(wanted, check, records, out)?;
    gather_and_rebuild(wanted, check, records, out)
}

// What passes the tests, joined. Not inlined: a function clears the room of its locals when it is entered, and a refused join needs none.
#[inline(never)]
fn gather_and_rebuild(
    wanted: u64,
    check: &[u8],
    records: &[u8],
    out: &mut [u8],
) -> Result<Counts, Refusal>
    requires { (check_marked check.now ≡ true) × ((check_shaped check.now ≡ true) × ((eqb (check_head_of check.now).number wanted ≡ true) × (joining.lengths_fit check.now records.now out.old ≡ true))) }
    ensures value { joining.numbers_of result ≡ joining.join_answer wanted check.now records.now out.old }
    ensures out_after { out.new ≡ joining.join_output wanted check.now records.now out.old }
{
    let held = gather::gather(wanted, check, records);
    let used = held.used.as_slice();
    let count = used.len();
    let counts = Counts {
        read: held.read as u64,
        indexes: count as u64,
    };
    let m = usize::from(record::read_check(check).m);
    if count != m {
        return Err(Refusal::TooFew(counts));
    }
    if !rebuild_from(check, records, used, out) {
        return Err(Refusal::Fill(counts));
    }
    Ok(counts)
}

// The block from the m records that are used: false, with nothing written, where the fill is not zero.
fn rebuild_from(check: &[u8], records: &[u8], used: &[Used], out: &mut [u8]) -> bool
    requires tested { (check_shaped check.now ≡ true) × (joining.lengths_fit check.now records.now out.old ≡ true) }
    requires used_value { used.now ≡ joining.all_used (check_head_of check.now).number check.now records.now }
    requires enough { length used.now ≡ (check_head_of check.now).m }
    ensures value { let c = check_head_of check.now in result ≡ joining.all_zero (drop c.length (joining.padded c.number check.now records.now)) }
    ensures out_after { let c = check_head_of check.now in out.new ≡ cond result (take c.length (joining.padded c.number check.now records.now)) out.old }
{
    let head = record::read_check(check);
    let count = used.len();
    let indexes = sources::apart(used);
    let mut spreads = [0u8; 255];
    code::each_spread(&indexes[..count], &mut spreads[..count]);
    let sources = Sources {
        records,
        stride: gather::stride(check),
        size: code::body_length(head.length, head.m),
        used,
        indexes: &indexes[..count],
        spreads: &spreads[..count],
    };
    block::rebuild(out, sources)
}

/// The promise is in numbers, and these fix the answer.
#[tactic(auto, using(crate::proofs::Outcome::one_answer))]
pub fn one_answer()
    ensures { (a b : Result Counts Refusal) → joining.numbers_of a ≡ joining.numbers_of b → a ≡ b }
{}
