//! Laws of the definitions, each the contract of a function that does nothing. Of blocks of bytes, m from 0 to 256 and indexes below 256.

ghost use Rattle.code.specs.Stated.{OwnBytes, BytesCombine, BodiesCombine, AnyBody, AnyBlock, ClosedCoefficients};

/// Body j, for j below m, is bytes j x F up to (j+1) x F of the block.
pub fn byte_own()
    ensures { OwnBytes }
{}

/// Each byte of a body is the combination of the block's own bytes at its position, by the body's coefficients.
pub fn byte_combined()
    ensures { BytesCombine }
{}

/// Each body is the combination of the first m by its coefficients.
pub fn body_combined()
    ensures { BodiesCombine }
{}

/// Any m bodies with different indexes give every other body to the byte.
pub fn any_body()
    ensures { AnyBody }
{}

/// Any m bodies with different indexes give back the block of m x F bytes.
pub fn any_block()
    ensures { AnyBlock }
{}

/// How much body j counts in body i is Lagrange's product over the points 0 to m - 1.
pub fn coefficient_closed()
    ensures { ClosedCoefficients }
{}
