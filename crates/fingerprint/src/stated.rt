//! Laws of the definitions, each the contract of a function that does nothing.

ghost use Rattle.fingerprint.specs.Stated.{PrintsCombine, TableGivesPrint};

/// The fingerprint of a combination of equally long bodies is the combination of their fingerprints, at every seed column.
///
/// Theorem 2.11 of document 000.
pub fn fingerprint_combined()
    ensures { PrintsCombine }
{}

/// What `evaluated` gives with the table of the seed column's square is the fingerprint at the seed column.
pub fn evaluated_fingerprint()
    ensures { TableGivesPrint }
{}
