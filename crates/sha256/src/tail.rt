//! The end of a message: what is left past its whole blocks, with the padding after it (FIPS 180-4, 5.1.1), and the digest.
ghost use Rattle.std.specs.Prelude.{◌≡◌, ◌*◌, ◌%◌, ◌≤◌, ◌++◌, length};
ghost use Rattle.sha256.specs.Fips180.{bytes, padding, digest as fips_digest};
ghost use Rattle.sha256.specs.Hash.{finished};

use crate::State;
use crate::block::absorb;

/// The digest of a message whose first blocks, so many, led to s, and whose other bytes are rest.
pub fn finish(s: State, blocks: u32, rest: &[u8]) -> [u8; 32]
    ensures { result ≡ finished s blocks rest.now }
{
    let l = u64::from(blocks) * 64 + rest.len() as u64;
    let (_, end) = rest.as_chunks::<64>();
    let n = end_len(end, l);
    let mut last = [0; 128];
    fill(&mut last[..n], end, l);
    digest(absorb(absorb(s, rest), &last[..n]))
}

// How many bytes rest and the padding of a message of l bytes are: one block, or two where the first has no room for the length.
#[tactic(auto, using(crate::proofs::Ending::ended))]
fn end_len(rest: &[u8], l: u64) -> usize
    requires { length rest.now ≡ l % 64 }
    ensures value { result ≡ length (rest.now ++ padding l) }
    ensures upper_bound { result ≤ 128 }
{
    if rest.len() < 56 { 64 } else { 128 }
}

// Fills out with rest and the padding of a message of l bytes.
#[tactic(auto, using(crate::proofs::Ending::ended))]
fn fill(out: &mut [u8], rest: &[u8], l: u64)
    requires rest_len { length rest.now ≡ l % 64 }
    requires out_len { length out.old ≡ length (rest.now ++ padding l) }
    ensures { out.new ≡ rest.now ++ padding l }
{
    let (front, end) = out.split_at_mut(rest.len());
    front.copy_from_slice(rest);
    let (one, end) = end.split_at_mut(1);
    one.fill(0x80);
    let (zeros, bits) = end.split_at_mut(end.len() - 8);
    zeros.fill(0);
    bits.copy_from_slice(&bit_count(l));
}

// The bits of a message of l bytes, as a number of 8 bytes: what they have no room for is dropped.
#[tactic(auto, unfolding(crate::specs::Fips180::bytes))]
fn bit_count(l: u64) -> [u8; 8]
    ensures { result ≡ bytes 8 (8 * l) }
{
    (l << 3).to_be_bytes()
}

// A hash value as bytes.
#[tactic(auto, unfolding(crate::specs::Fips180::bytes, crate::specs::Fips180::digest), using(crate::proofs::Ending::four))]
fn digest(s: State) -> [u8; 32]
    ensures { result ≡ fips_digest s }
{
    let words = [
        s.a.to_be_bytes(),
        s.b.to_be_bytes(),
        s.c.to_be_bytes(),
        s.d.to_be_bytes(),
        s.e.to_be_bytes(),
        s.f.to_be_bytes(),
        s.g.to_be_bytes(),
        s.h.to_be_bytes(),
    ];
    let mut out = [0; 32];
    out.copy_from_slice(words.as_flattened());
    out
}
