//! Parts of the padded block, from the bodies at hand: the fill, which is only looked at, and the block itself.
ghost use Rattle.std.specs.Prelude.{◌≡◌, cond, ◌+◌, ◌-◌, ◌*◌, ◌^◌, ◌<◌, ◌≤◌, ◌==◌};
ghost use lib.ListN.{length};
ghost use Rattle.algebra.specs.Several.{listed};
ghost use Rattle.join.specs.Join.{all_zero};
ghost use Rattle.join.specs.Parts.{places, mixed, block_byte};

use crate::regain::regain;
use crate::sources::Sources;

// From byte `at` of the records on, those of body t.
fn write_run(out: &mut [u8], sources: Sources<'_>, t: u8, at: usize)
    requires out_bound { at + length out.old ≤ sources.stride }
    ensures { let s = sources.entry in out.new ≡ listed (length out.old) (λ p. mixed s.indexes.now (places s.used.now) s.records.now s.stride t (at + p)) }
{
    let mut by = [0u8; 255];
    let count = sources.indexes.len();
    code::each_share(sources.indexes, sources.spreads, t, &mut by[..count]);
    regain(out, sources, at, &by[..count]);
}

// The bytes of the padded block from `first` on, body by body.
// How far the output goes is each caller's own bound, and no fact about the sources.
#[tactic(auto, using(code::proofs::Walks::listed_all))]
fn write_part(out: &mut [u8], sources: Sources<'_>, first: usize)
    requires { (first + length out.old ≤ length sources.indexes.now * sources.size) × (length sources.indexes.now * sources.size < 2 ^ 64) }
    ensures { let s = sources.entry in out.new ≡ listed (length out.old) (λ k. block_byte s.indexes.now (places s.used.now) s.records.now s.stride s.size (first + k)) }
{
    // A turn for each body, of which the first and the last may be parts: a `for` over the bodies would cut both ends off, and divide by a
    // size that is 0 where the output is empty.
    let mut done = 0;
    while done < out.len() {
        let t = (first + done) / sources.size;
        let p = (first + done) % sources.size;
        let end = done + (sources.size - p).min(out.len() - done);
        write_run(
            &mut out[done..end],
            sources,
            t as u8,
            sources.stride - sources.size + p,
        );
        done = end;
    }
}

// Whether the padded block is zero from `length` on: there are fewer than three such bytes for each body.
fn fill_is_zero(sources: Sources<'_>, length: usize) -> bool
    requires { (length ≤ lib.ListN.length sources.indexes.now * sources.size) × ((lib.ListN.length sources.indexes.now * sources.size < length + 768) × (lib.ListN.length sources.indexes.now * sources.size < 2 ^ 64)) }
    ensures { let s = sources.entry in result ≡ all_zero (listed (lib.ListN.length s.indexes.now * s.size - length) (λ k. block_byte s.indexes.now (places s.used.now) s.records.now s.stride s.size (length + k))) }
{
    let mut room = [0u8; 768];
    let count = sources.indexes.len() * sources.size - length;
    write_part(&mut room[..count], sources, length);
    is_zero(&room[..count])
}

// Whether all of these bytes are zero.
fn is_zero(bytes: &[u8]) -> bool
    ensures { result ≡ all_zero bytes.now }
{
    bytes.iter().all(|byte| *byte == 0)
}

// The block, for an output as long as it is: false, with nothing written, where the fill is not zero.
pub(crate) fn rebuild(out: &mut [u8], sources: Sources<'_>) -> bool
    requires { (length out.old ≤ length sources.indexes.now * sources.size) × (length sources.indexes.now * sources.size < length out.old + 768) }
    ensures value { let s = sources.entry in result ≡ all_zero (listed (length s.indexes.now * s.size - length out.old) (λ k. block_byte s.indexes.now (places s.used.now) s.records.now s.stride s.size (length out.old + k))) }
    ensures out_after { let s = sources.entry in out.new ≡ cond result (listed (length out.old) (block_byte s.indexes.now (places s.used.now) s.records.now s.stride s.size)) out.old }
{
    let filled = fill_is_zero(sources, out.len());
    if filled {
        write_part(out, sources, 0);
    }
    filled
}
