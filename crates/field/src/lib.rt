//! The bytes as the field of FIPS 197: sum, product, inverse and quotient of two bytes, the row of all products by one byte, and a
//! multiple of some bytes added to others. Products stand on one table of the powers of 03, which is read in place. No public
//! function asks anything of its caller.
#![tactic(auto)]

mod adding;
mod many;
pub mod stated;
mod tables;

ghost use Rattle.std.specs.Prelude.{◌≡◌};
ghost use Rattle.field.specs.Byte as byte;

pub use adding::add_products;
pub use many::{nodal, spread_but};
use tables::{place, power};

#[tactic(auto, unfolding(crate::specs::Byte::plus))]
pub fn plus(a: u8, b: u8) -> u8
    ensures { result ≡ byte.plus a b }
{
    a ^ b
}

pub fn times(a: u8, b: u8) -> u8
    ensures { result ≡ byte.times a b }
{
    if a == 0 || b == 0 {
        return 0;
    }
    power(place(a) + place(b))
}

/// 0 for 0.
pub fn inverse(a: u8) -> u8
    ensures { result ≡ byte.inverse a }
{
    if a == 0 {
        return 0;
    }
    power(255 - place(a))
}

/// a times the inverse of b, so 0 where b is 0.
pub fn quotient(a: u8, b: u8) -> u8
    ensures { result ≡ byte.times a (byte.inverse b) }
{
    times(a, inverse(b))
}

/// Entry x is the product of `by` and x: one lookup for each product by the same byte.
pub fn row(by: u8) -> [u8; 256]
    ensures { result ≡ byte.products by }
{
    let mut out = [0u8; 256];
    if by == 0 {
        return out;
    }
    let at = place(by);
    for k in 0..255 {
        out[usize::from(power(k))] = power(at + k);
    }
    out
}
