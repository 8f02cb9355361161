//! Laws of the definitions, each the contract of a function that does nothing.

ghost use Rattle.field.specs.Stated.{ByteLaws};

/// The bytes are a field in which a + a is 0: every law of sums and products, and an inverse of every byte but 0.
///
/// Sum and product are those of FIPS 197, sections 4.1 and 4.2.
pub fn byte_laws()
    ensures { ByteLaws }
{}
