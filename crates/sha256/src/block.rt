//! The hash value after blocks of 64 bytes: the schedule of words and the 64 turns of each (FIPS 180-4, 6.2.2).
ghost use Rattle.std.specs.Prelude.{◌≡◌, ℕ, ◌+◌, ◌%◌, ◌<◌, ◌≤◌, List, length, take, drop, slice_index, slice_index_or, slice_set};
ghost use Rattle.sha256.specs.declared.State.{State as FipsState};
ghost use Rattle.sha256.specs.Fips180.{◌⊞◌, σ₀, σ₁, word, K as fips_K, W, turn as fips_turn, turns, next as fips_next, Hᴺ};

use crate::State;
use crate::word::{ch, lower_sigma_0, lower_sigma_1, maj, upper_sigma_0, upper_sigma_1};

static K: [[u32; 16]; 4] = [
    [
        0x428a2f98, 0x71374491, 0xb5c0fbcf, 0xe9b5dba5, 0x3956c25b, 0x59f111f1, 0x923f82a4,
        0xab1c5ed5, 0xd807aa98, 0x12835b01, 0x243185be, 0x550c7dc3, 0x72be5d74, 0x80deb1fe,
        0x9bdc06a7, 0xc19bf174,
    ],
    [
        0xe49b69c1, 0xefbe4786, 0x0fc19dc6, 0x240ca1cc, 0x2de92c6f, 0x4a7484aa, 0x5cb0a9dc,
        0x76f988da, 0x983e5152, 0xa831c66d, 0xb00327c8, 0xbf597fc7, 0xc6e00bf3, 0xd5a79147,
        0x06ca6351, 0x14292967,
    ],
    [
        0x27b70a85, 0x2e1b2138, 0x4d2c6dfc, 0x53380d13, 0x650a7354, 0x766a0abb, 0x81c2c92e,
        0x92722c85, 0xa2bfe8a1, 0xa81a664b, 0xc24b8b70, 0xc76c51a3, 0xd192e819, 0xd6990624,
        0xf40e3585, 0x106aa070,
    ],
    [
        0x19a4c116, 0x1e376c08, 0x2748774c, 0x34b0bcb5, 0x391c0cb3, 0x4ed8aa4a, 0x5b9cca4f,
        0x682e6ff3, 0x748f82ee, 0x78a5636f, 0x84c87814, 0x8cc70208, 0x90befffa, 0xa4506ceb,
        0xbef9a3f7, 0xc67178f2,
    ],
];

/// The hash value after one block more. Of the schedule only the sixteen words from 16 * i on are kept: word 16 * i + j is w[j].
pub fn step(s: State, block: &[u8; 64]) -> State
    ensures { result ≡ fips_next s block.now }
{
    let mut w = first(block);
    let mut v = s;
    for i in 0..3 {
        v = along(v, &K[i], &mut w);
    }
    let v = last(v, &K[3], &w);
    State {
        a: v.a.wrapping_add(s.a),
        b: v.b.wrapping_add(s.b),
        c: v.c.wrapping_add(s.c),
        d: v.d.wrapping_add(s.d),
        e: v.e.wrapping_add(s.e),
        f: v.f.wrapping_add(s.f),
        g: v.g.wrapping_add(s.g),
        h: v.h.wrapping_add(s.h),
    }
}

// The hash value after the whole blocks of m, which are read where they lie; what is left past them is not looked at.
pub(crate) fn absorb(s: State, m: &[u8]) -> State
    ensures { result ≡ Hᴺ s m.now }
{
    let (blocks, _) = m.as_chunks::<64>();
    blocks.iter().fold(s, |v, block| step(v, block))
}

// The first sixteen words of the schedule of the block m.
fn first(m: &[u8; 64]) -> [u32; 16]
    ensures { result ≡ W 16 m.now }
{
    let mut w = [0; 16];
    for t in 0..16 {
        w[t] = word_at(m, 4 * t);
    }
    w
}

// Sixteen turns; w goes from the words of these to those of the next sixteen.
// A straight line, so that no variable is ever moved. A loop here and in `last` was tried and proves, but the hash is then 1.35 times
// as slow: 0.47 of OpenSSL's rate, where 0.5 is asked (measured 2026-11-27).
fn along(s: State, k: &[u32; 16], w: &mut [u32; 16]) -> State
    ensures { (m : List ℕ) (v : FipsState) (t : ℕ) → t ≤ 32 → k.now ≡ take 16 (drop t fips_K) → w.old ≡ take 16 (drop t (W 64 m)) → s ≡ turns t (W 64 m) v → (result ≡ turns (t + 16) (W 64 m) v) × (w.new ≡ take 16 (drop (t + 16) (W 64 m))) }
{
    let v = turn_and_word(s, k, w, 0);
    let v = turn_and_word(v, k, w, 1);
    let v = turn_and_word(v, k, w, 2);
    let v = turn_and_word(v, k, w, 3);
    let v = turn_and_word(v, k, w, 4);
    let v = turn_and_word(v, k, w, 5);
    let v = turn_and_word(v, k, w, 6);
    let v = turn_and_word(v, k, w, 7);
    let v = turn_and_word(v, k, w, 8);
    let v = turn_and_word(v, k, w, 9);
    let v = turn_and_word(v, k, w, 10);
    let v = turn_and_word(v, k, w, 11);
    let v = turn_and_word(v, k, w, 12);
    let v = turn_and_word(v, k, w, 13);
    let v = turn_and_word(v, k, w, 14);
    let v = turn_and_word(v, k, w, 15);
    v
}

// The last sixteen turns, after which no word is due. A straight line: with a loop here alone, which proves too, the hash is 1.06
// times as slow (measured 2026-11-27).
fn last(s: State, k: &[u32; 16], w: &[u32; 16]) -> State
    ensures { (m : List ℕ) (v : FipsState) (t : ℕ) → t ≤ 48 → k.now ≡ take 16 (drop t fips_K) → w.now ≡ take 16 (drop t (W 64 m)) → s ≡ turns t (W 64 m) v → result ≡ turns (t + 16) (W 64 m) v }
{
    let v = turn(s, k[0], w[0]);
    let v = turn(v, k[1], w[1]);
    let v = turn(v, k[2], w[2]);
    let v = turn(v, k[3], w[3]);
    let v = turn(v, k[4], w[4]);
    let v = turn(v, k[5], w[5]);
    let v = turn(v, k[6], w[6]);
    let v = turn(v, k[7], w[7]);
    let v = turn(v, k[8], w[8]);
    let v = turn(v, k[9], w[9]);
    let v = turn(v, k[10], w[10]);
    let v = turn(v, k[11], w[11]);
    let v = turn(v, k[12], w[12]);
    let v = turn(v, k[13], w[13]);
    let v = turn(v, k[14], w[14]);
    let v = turn(v, k[15], w[15]);
    v
}

// Turn i of sixteen; the word that is due sixteen turns later then takes the place of the one that was read.
fn turn_and_word(v: State, k: &[u32; 16], w: &mut [u32; 16], i: usize) -> State
    requires { i < 16 }
    ensures value { result ≡ fips_turn v (slice_index k.now i) (slice_index w.old i) }
    ensures w_after { w.new ≡ slice_set w.old i (σ₁ (slice_index w.old ((i + 14) % 16)) ⊞ slice_index_or w.old ((i + 9) % 16) 0 ⊞ σ₀ (slice_index w.old ((i + 1) % 16)) ⊞ slice_index_or w.old i 0) }
{
    let r = turn(v, k[i], w[i]);
    w[i] = scheduled(w[(i + 14) % 16], w[(i + 9) % 16], w[(i + 1) % 16], w[i]);
    r
}

// A word of the schedule, from those 2, 7, 15 and 16 before it.
fn scheduled(w2: u32, w7: u32, w15: u32, w16: u32) -> u32
    ensures { result ≡ σ₁ w2 ⊞ w7 ⊞ σ₀ w15 ⊞ w16 }
{
    lower_sigma_1(w2)
        .wrapping_add(w7)
        .wrapping_add(lower_sigma_0(w15))
        .wrapping_add(w16)
}

// One turn on the eight words, with its constant and its word.
#[tactic(auto, unfolding(crate::specs::Fips180::turn))]
fn turn(v: State, k: u32, w: u32) -> State
    ensures { result ≡ fips_turn v k w }
{
    let t1 = v
        .h
        .wrapping_add(upper_sigma_1(v.e))
        .wrapping_add(ch(v.e, v.f, v.g))
        .wrapping_add(k)
        .wrapping_add(w);
    let t2 = upper_sigma_0(v.a).wrapping_add(maj(v.a, v.b, v.c));
    State {
        a: t1.wrapping_add(t2),
        b: v.a,
        c: v.b,
        d: v.c,
        e: v.d.wrapping_add(t1),
        f: v.e,
        g: v.f,
        h: v.g,
    }
}

// The word that the four bytes from place i on make, the first the most significant.
#[tactic(auto, unfolding(crate::specs::Fips180::word))]
fn word_at(m: &[u8], i: usize) -> u32
    requires { i + 4 ≤ length m.now }
    ensures { result ≡ word m.now i }
{
    u32::from_be_bytes([m[i], m[i + 1], m[i + 2], m[i + 3]])
}
