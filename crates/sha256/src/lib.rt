//! SHA-256 (FIPS 180-4). `sha256` hashes a body, `digest` any bytes; `start`, `step` and `finish` hash bytes that come in pieces: any
//! number of blocks of 64 bytes, and then the rest. The definitions stand in specs/, in the standard's order and by its names.
#![tactic(auto)]

mod block;
mod tail;
mod word;

ghost use Rattle.std.specs.Prelude.{◌≡◌, ℕ, List, Result};
ghost use Rattle.refusal.specs.declared.Refusal.{Refusal};
ghost use Rattle.sha256.specs.Fips180.{H⁰, SHA_256};
ghost use Rattle.sha256.specs.Hash.{answered, numbers_of};

pub use block::step;
use refusal::Refusal;
pub use tail::finish;

/// A hash value: eight words, H0 to H7 of the standard, and its working variables in the turns of a block.
#[derive(Clone, Copy, Debug, PartialEq, Eq, Hash)]
pub struct State {
    pub a: u32,
    pub b: u32,
    pub c: u32,
    pub d: u32,
    pub e: u32,
    pub f: u32,
    pub g: u32,
    pub h: u32,
}

/// The digest of a body; one longer than the longest body is refused by 2.
#[tactic(auto, unfolding(crate::specs::Hash::answered))]
pub fn sha256(body: &[u8]) -> Result<[u8; 32], Refusal>
    ensures { numbers_of result ≡ answered body.now }
{
    if limits::LONGEST_BODY < body.len() {
        return Err(Refusal::TooLong);
    }
    Ok(digest(body))
}

/// The digest of bytes of any length.
#[tactic(auto, using(crate::proofs::Pieces::whole))]
pub fn digest(message: &[u8]) -> [u8; 32]
    ensures { result ≡ SHA_256 message.now }
{
    finish(start(), 0, message)
}

/// The hash value of no block.
pub fn start() -> State
    ensures { result ≡ H⁰ }
{
    State {
        a: 0x6a09e667,
        b: 0xbb67ae85,
        c: 0x3c6ef372,
        d: 0xa54ff53a,
        e: 0x510e527f,
        f: 0x9b05688c,
        g: 0x1f83d9ab,
        h: 0x5be0cd19,
    }
}

/// What `sha256` promises fixes its answer.
pub fn one_answer()
    ensures { (body : List ℕ) (a b : Result (List ℕ) Refusal) → numbers_of a ≡ answered body → numbers_of b ≡ answered body → a ≡ b }
{}
