//! The check record of n fragment records, from the bodies where they stand.
ghost use Rattle.std.specs.Prelude.{◌≡◌, ℕ, ◌+◌, ◌*◌, ◌≤◌};
ghost use lib.ListN.{length};
ghost use Rattle.limits.specs.Limits.{longest_block};
ghost use Rattle.algebra.specs.Several.{listed, end_to_end};
ghost use Rattle.column.specs.Column.{from_seed};
ghost use Rattle.code.specs.Cutting as cutting;
ghost use Rattle.fingerprint.specs.Fingerprint as print;
ghost use Rattle.sha256.specs.Fips180.{SHA_256};
ghost use Rattle.record.specs.Layout as layout;
ghost use Rattle.cut.specs.Cut as cut;

use crate::body_among;
use column::Column;
use fingerprint::SeedTable;
use record::{CheckHead, WRITTEN_VERSION};

// Writes the check record of the bodies in n records, whatever they hold.
pub(crate) fn write_check(head: CheckHead, fragments: &[u8], check: &mut [u8])
    requires version_value { head.version ≡ layout.written_version }
    requires le_m { (1 ≤ head.m) × (head.m ≤ head.n) × (head.length ≤ longest_block) }
    requires check_value { length check.old ≡ layout.check_length layout.written_version head.m head.n }
    ensures { (seed : ℕ) → head.seed ≡ from_seed seed → check.new ≡ cut.check_of head.m head.n seed head.number head.length (cut.body_among (cutting.body_length head.length head.m) fragments.now) }
{
    let size = code::body_length(head.length, head.m) as u32;
    record::write_check_head(check, head);
    let hashes = record::hash_place(WRITTEN_VERSION, 0);
    let prints = record::prints_place(WRITTEN_VERSION, head.n);
    write_hashes(&mut check[hashes..prints], head.n, size, fragments);
    write_prints(&mut check[prints..], head.m, size, head.seed, fragments);
}

// Writes the hash of each of n bodies, one after the other.
// The next function is its twin but for the piece: one for both would take a closure with a contract of its own and a ghost for what it says, longer than either.
#[tactic(auto, using(crate::proofs::Filling::filled_none, crate::proofs::Filling::filled_more, sha256::proofs::Lengths::length_SHA_256))]
fn write_hashes(out: &mut [u8], n: u8, size: u32, fragments: &[u8])
    requires { length out.old ≡ 32 * n }
    ensures { out.new ≡ end_to_end (listed n (λ i. SHA_256 (cut.body_among size fragments.now i))) }
{
    for i in 0..n {
        let start = 32 * usize::from(i);
        let digest = sha256::digest(body_among(size, fragments, i));
        out[start..start + 32].copy_from_slice(&digest);
    }
}

// Writes the fingerprint of each of the first m bodies, one after the other, with one table for all.
#[tactic(auto, using(crate::proofs::Filling::filled_none, crate::proofs::Filling::filled_more))]
fn write_prints(out: &mut [u8], m: u8, size: u32, y: Column, fragments: &[u8])
    requires { length out.old ≡ 3 * m }
    ensures { out.new ≡ end_to_end (listed m (λ j. layout.column_bytes (print.fingerprint_at y (cut.body_among size fragments.now j)))) }
{
    let mut room = [0u32; 768];
    let table = SeedTable::new(y, &mut room);
    for j in 0..m {
        let start = 3 * usize::from(j);
        let print = table.fingerprint(body_among(size, fragments, j));
        out[start..start + 3].copy_from_slice(&print.to_bytes());
    }
}
