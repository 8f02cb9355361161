//! The check of one fragment against its check record, `check`, and the body of an accepted one, `open`.
//! Any bytes at all give a verdict: no public function asks anything of its caller.
#![tactic(auto)]

mod agree;
mod refused;
pub mod stated;

ghost use Rattle.std.specs.Prelude.{◌≡◌, ◌+◌};
ghost use Rattle.inspect.specs.Answer.{answer};
ghost use Rattle.inspect.specs.Check.{checked, opened, opened_place};

use agree::{hash_agrees, print_agrees};

/// Why a fragment is refused, in document 01's order. An enum of its own, and within the verdict: document 01's list of forms names both.
#[derive(Clone, Copy, Debug, PartialEq, Eq, Hash)]
pub enum Reason {
    CheckMark,
    CheckShape,
    OtherBlock,
    FragmentShape,
    OtherNumber(u64),
    NoSuchHead,
    Hash,
    Fingerprint,
}

/// What a check answers: the index of an accepted fragment, or why it is refused.
#[derive(Clone, Copy, Debug, PartialEq, Eq, Hash)]
pub enum Verdict {
    Accepted(u8),
    Refused(Reason),
}

/// The first reason of document 01's table that applies. No length, byte or number is trusted before it is tested.
/// The tests give no value, so a `Result` with `?` inside would be no plainer than these returns, and a `match` longer.
#[tactic(auto, unfolding(crate::specs::Check::checked, crate::specs::Check::conditions, crate::specs::Check::first_answer, crate::specs::Check::size_of, crate::specs::Check::body_of), using(crate::proofs::Shaped::body_lies_within))]
pub fn check(wanted: u64, check: &[u8], fragment: &[u8]) -> Verdict
    ensures { answer result ≡ checked wanted check.now fragment.now }
{
    if !record::check_marked(check) {
        return Verdict::Refused(Reason::CheckMark);
    }
    if !record::check_shaped(check) {
        return Verdict::Refused(Reason::CheckShape);
    }
    let c = record::read_check(check);
    if c.number != wanted {
        return Verdict::Refused(Reason::OtherBlock);
    }
    let size = code::body_length(c.length, c.m);
    if !record::fragment_shaped(c.version, size, fragment) {
        return Verdict::Refused(Reason::FragmentShape);
    }
    let f = record::read_fragment(fragment);
    if f.number != wanted {
        return Verdict::Refused(Reason::OtherNumber(f.number));
    }
    if f.index >= c.n {
        return Verdict::Refused(Reason::NoSuchHead);
    }
    let at = record::body_place(c.version);
    let body = &fragment[at..];
    if !hash_agrees(check, c, f.index, body) {
        return Verdict::Refused(Reason::Hash);
    }
    if !print_agrees(check, c, f.index, body) {
        return Verdict::Refused(Reason::Fingerprint);
    }
    Verdict::Accepted(f.index)
}

/// The body of an accepted fragment, a part of the lent record; where the check refuses, the empty part at the record's start.
#[tactic(auto, unfolding(crate::specs::Check::opened, crate::specs::Check::opened_place, crate::specs::Check::body_of), using(crate::proofs::Opening::no_zero, crate::proofs::Opening::body_fits))]
pub fn open<'a>(wanted: u64, check: &[u8], fragment: &'a [u8]) -> &'a [u8]
    ensures bytes { result.now ≡ opened wanted check.now fragment.now }
    ensures place { (result.ref_ptr.0 ≡ fragment.entry.ref_ptr.0) × (result.ref_ptr.1 ≡ fragment.entry.ref_ptr.1 + opened_place wanted check.now fragment.now) }
{
    match crate::check(wanted, check, fragment) {
        Verdict::Accepted(_) => {
            let at = record::body_place(record::read_check(check).version);
            &fragment[at..]
        }
        Verdict::Refused(_) => &fragment[..0],
    }
}
