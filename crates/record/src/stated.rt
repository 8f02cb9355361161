//! Laws of the definitions, each the contract of a function that does nothing.

ghost use Rattle.record.specs.Stated.{CheckReadBack, FragmentReadBack};

/// The head of a check record is read back as it was written: version, block number, block length, m, n and seed column.
///
/// For a version of 16 bits, a block number of 64 and a length of 32, whatever bytes follow.
pub fn check_back()
    ensures { CheckReadBack }
{}

/// The head of a fragment record is read back as it was written: version, block number, index and body length.
///
/// For a version of 16 bits, a block number of 64 and a length of 32, whatever bytes follow.
pub fn fragment_back()
    ensures { FragmentReadBack }
{}
