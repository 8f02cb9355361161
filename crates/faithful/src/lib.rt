//! What a cut keeps faithfully: laws of the definitions that `cut`, `inspect` and `join` meet, each the contract of a function that does
//! nothing.
//!
//! - `each_accepted`: every fragment of a cut is accepted under the cut's check record.
//! - `any_give_back`: any m of them, in any order and among refused and repeated ones, give the block back to the byte.
//! - `filled_body`, `any_filled`: the same of bodies, before there are records.
#![tactic(auto)]

ghost use Rattle.faithful.specs.Faithful.{EachAccepted, AnyGiveBack, FilledBody, AnyFilled};

/// Each honestly cut fragment is accepted, with its index, at every seed.
///
/// For m from 1 to n, n at most 64, a block of at most 65,536 bytes, a seed of at most 16,777,215 and any 64-bit block number.
pub fn each_accepted()
    ensures { EachAccepted }
{}

/// Records that hold m different fragments of one cut give the block back to the byte, whatever their order.
///
/// At most n records, each one of the cut's, maybe a second time, or one that the check refuses; the output is as long as the block.
pub fn any_give_back()
    ensures { AnyGiveBack }
{}

/// A block filled with zero bytes to m times F has the bodies of the block.
pub fn filled_body()
    ensures { FilledBody }
{}

/// Any m bodies of a block, with different indexes below 256, give back the block filled to m times F bytes.
pub fn any_filled()
    ensures { AnyFilled }
{}
