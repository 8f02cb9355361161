//! Laws of the definitions, each the contract of a function that does nothing.

ghost use Rattle.algebra.specs.Carrier.{Laws};
ghost use Rattle.field.proofs.Byte.{field};
ghost use Rattle.column.specs.Triple.{triples};
ghost use Rattle.column.specs.Stated.{NoRoot, SeedsDiffer, SeedsReach};

/// x^3 + x + 1 has no root among the 256 bytes, and so, of degree 3, no factor.
pub fn rootless()
    ensures { NoRoot }
{}

/// The columns of bytes, with products modulo x^3 + x + 1, keep every law of a field in which u + u is 0, and have no zero divisors.
pub fn column_laws()
    ensures { Laws (triples field) }
{}

/// Seed numbers from 0 to 16,777,215 with the same column are the same.
pub fn seed_one_to_one()
    ensures { SeedsDiffer }
{}

/// Every column of bytes is the column of a seed number from 0 to 16,777,215.
pub fn seed_reaches()
    ensures { SeedsReach }
{}
