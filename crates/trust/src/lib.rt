//! What a head may trust of a record that it did not write: laws of the definitions, each the contract of a function that does nothing.
//!
//! - `one_block_matches`: one block's own fingerprints match all its bodies, at every seed.
//! - `few_seeds`: bodies of no one block are matched at fewer seeds than a body has columns, whoever wrote the fingerprints.
//! - `one_seed`: the worked example of two bodies that agree at one seed only.
//! - `cases_hold`: the worked numbers of the field, the code and the fingerprint.
#![tactic(auto)]

ghost use Rattle.algebra.specs.Several.{All};
ghost use Rattle.trust.specs.Trust.{OneBlockMatches, FewSeeds};
ghost use Rattle.trust.specs.Numbers.{Holds, cases, six, other};
ghost use Rattle.trust.specs.Numbers.Case.{agree_only};

/// Where one padded block has all the bodies, its m fingerprints match every one of them, at every seed.
///
/// Of k bodies with different indexes below n, k from m to n and n at most 256, all F bytes long, F a multiple of 3 and at least 3.
/// A fingerprint of a combination is the combination of the fingerprints (theorem 2.11 of document 000).
pub fn one_block_matches()
    ensures { OneBlockMatches }
{}

/// Where no padded block has all the bodies, at most F/3 - 1 of the seeds from 0 to 16,777,215 allow any list of m fingerprints, from
/// any writer, that matches them all.
///
/// Of bodies as in `one_block_matches`. Two polynomials of F/3 coefficients, one for each column, that agree at F/3 seeds are one: the
/// counting of theorem 2.4 and corollary 2.12 of document 000, of all k bodies at once.
pub fn few_seeds()
    ensures { FewSeeds }
{}

/// The bodies 01 02 03 04 05 06 and 01 03 03 05 05 06 have the same fingerprint at seed 256, and at no other.
///
/// They have two columns each, so `few_seeds` would allow one seed; this is that one.
pub fn one_seed()
    ensures { Holds (agree_only 256 six other) }
{}

/// Every number of the worked examples holds of the definitions: products and inverses of bytes, coefficients, a square of a column,
/// fingerprints, the bodies of a block, and what `one_seed` says.
pub fn cases_hold()
    ensures { All Holds cases }
{}
