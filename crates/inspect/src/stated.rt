//! Laws of the definitions, each the contract of a function that does nothing.

ghost use Rattle.std.specs.Prelude.{◌≡◌};
ghost use Rattle.inspect.specs.declared.Verdict.{Verdict};
ghost use Rattle.inspect.specs.Answer.{answer};
ghost use Rattle.inspect.specs.Stated.{NumberCalledFor, HashCalledFor, PrintCalledFor, AcceptedExactly, RefusedExactly};

/// An accepted fragment and its check record both have the wanted block number.
pub fn block_number()
    ensures { NumberCalledFor }
{}

/// An accepted fragment's body has the hash that its check record holds for its index.
pub fn hash()
    ensures { HashCalledFor }
{}

/// An accepted fragment's body has the fingerprint that its check record's fingerprints call for.
pub fn fingerprint()
    ensures { PrintCalledFor }
{}

/// A fragment is accepted exactly where every condition of the check holds.
pub fn accepted_exactly()
    ensures { AcceptedExactly }
{}

/// A fragment is refused by reason 5 + k exactly where condition k is the first of the eight that fails.
pub fn refused_exactly()
    ensures { RefusedExactly }
{}

/// Verdicts of the same numbers are the same: a check's promise fixes its outcome.
pub fn one_verdict()
    ensures { (v w : Verdict) → answer v ≡ answer w → v ≡ w }
{}
