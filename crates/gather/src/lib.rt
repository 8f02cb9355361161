//! Gathering: `gather` reads records end to end, in order, and finds the first m that a join can use: accepted, with different indexes.
//! `stride` is how long each of the records is. No public function asks anything of its caller.
#![tactic(auto)]

mod room;

ghost use Rattle.std.specs.Prelude.{◌≡◌};
ghost use Rattle.gather.specs.Gather as gathering;

use inspect::Verdict;
pub use room::UsedRecords;

/// A record that is used: its index, and its place among the records, from 0.
#[derive(Clone, Copy, Debug, PartialEq, Eq, Hash, Default)]
pub struct Used {
    pub index: u8,
    pub place: usize,
}

/// How many records were read, and those that are used, in the order in which they were read.
#[derive(Clone, Copy, Debug, PartialEq, Eq)]
pub struct Gathered {
    pub read: usize,
    pub used: UsedRecords,
}

/// How long each record is that belongs to this check record.
#[tactic(auto, using(crate::proofs::Places::stride_fits, crate::proofs::Places::stride_is))]
pub fn stride(check: &[u8]) -> usize
    ensures { result ≡ gathering.stride check.now }
{
    let head = record::read_check(check);
    record::body_place(head.version) + code::body_length(head.length, head.m)
}

/// Stops at the m-th record that it uses, or at the end. What is left over behind the last whole record is not read.
#[tactic(auto, using(crate::proofs::Places::some_stride))]
pub fn gather(wanted: u64, check: &[u8], records: &[u8]) -> Gathered
    ensures { result ≡ gathering.gathered wanted check.now records.now }
{
    let m = usize::from(record::read_check(check).m);
    let stride = stride(check);
    let count = records.len() / stride;
    let mut used = UsedRecords::new();
    for place in 0..count {
        if used.len() == m {
            return Gathered { read: place, used };
        }
        let start = place * stride;
        let verdict = inspect::check(wanted, check, &records[start..start + stride]);
        if let Verdict::Accepted(index) = verdict {
            if !has(used.as_slice(), index) {
                used.push(Used { index, place });
            }
        }
    }
    Gathered { read: count, used }
}

// Whether a used record has this index.
fn has(used: &[Used], index: u8) -> bool
    ensures { result ≡ gathering.has_index index used.now }
{
    used.iter().any(|known| index == known.index)
}
