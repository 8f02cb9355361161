//! A body of the block, from the bodies at hand.
ghost use Rattle.std.specs.Prelude.{◌≡◌, map, ◌+◌, ◌*◌, ◌≤◌, length, get_or};
ghost use Rattle.algebra.specs.Several.{listed};
ghost use Rattle.algebra.specs.Combination.{combined, itself};
ghost use Rattle.field.specs.Byte.{bytes};
ghost use Rattle.join.specs.Parts.{places};

use crate::sources::Sources;

// The sum over the used records of what lies from `at` on in each, by its coefficient. What counts nothing is passed over, so that a body at
// hand costs one copy.
// Its like in cut takes the bodies out of a block: one for both would take a closure with a contract of its own, longer than either.
#[tactic(auto, using(crate::proofs::Summing::used_at))]
pub(crate) fn regain(out: &mut [u8], sources: Sources<'_>, at: usize, by: &[u8])
    requires by_len { length by.now ≡ length sources.used.now }
    requires out_bound { at + length out.old ≤ sources.stride }
    ensures { let s = sources.entry in out.new ≡ listed (length out.old) (λ p. combined (itself bytes) by.now (map (λ k. get_or s.records.now (k * s.stride + (at + p)) 0) (places s.used.now))) }
{
    out.fill(0);
    for k in (0..sources.used.len()).rev() {
        let b = by[k];
        if b != 0 {
            let start = sources.used[k].place * sources.stride + at;
            let end = start + out.len();
            code::add_scaled(out, &sources.records[start..end], b);
        }
    }
}
