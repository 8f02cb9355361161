//! The m-of-n code: how long a body is, how much each of the first m bodies counts in a body, how much each of any bodies counts in
//! another, and the sum of bodies, to which a multiple of one is added at a time. No function asks anything of its caller.
#![tactic(auto)]

pub mod stated;
mod weights;

ghost use Rattle.std.specs.Prelude.{◌≡◌, min, length, replicate};
ghost use Rattle.algebra.specs.Polynomial as polynomial;
ghost use Rattle.field.specs.Adding as adding;
ghost use Rattle.field.specs.Byte.{bytes, inverse};
ghost use Rattle.code.specs.Cutting as cutting;
ghost use Rattle.code.specs.Weights as weights;

pub use weights::{coefficients, each_share, each_spread};

// Below this a row of 256 products costs more than the body's own products, one by one: the two meet between 200 and 400 bytes.
const SHORT: usize = 192;

/// F for a block of `length` bytes; 0 where m is 0.
pub fn body_length(length: u32, m: u8) -> usize
    ensures { result ≡ cutting.body_length length m }
{
    if m == 0 {
        return 0;
    }
    3 * (length as usize).div_ceil(3 * usize::from(m))
}

/// The points of the first 255 bodies, of which a cut into m takes the first m.
#[tactic(auto, unfolding(crate::specs::Cutting::points), using(crate::proofs::Walks::listed_all))]
pub fn points() -> [u8; 255]
    ensures { result ≡ cutting.points 255 }
{
    let mut out = [0u8; 255];
    for point in 0..255u8 {
        out[usize::from(point)] = point;
    }
    out
}

/// The product of t + q over the points q that are not t.
#[tactic(auto, unfolding(crate::specs::Weights::spread))]
pub fn spread(points: &[u8], t: u8) -> u8
    ensures { result ≡ weights.spread bytes points.now t }
{
    field::spread_but(points, t, t)
}

/// How much the value at p counts at t: Lagrange's product over the points.
pub fn weight(points: &[u8], p: u8, t: u8) -> u8
    ensures { result ≡ polynomial.weight bytes inverse points.now p t }
{
    field::quotient(field::spread_but(points, p, t), spread(points, p))
}

/// How much body j counts in body i; 0 where j is not below m, and 1 or 0 where i is.
pub fn coefficient(m: u8, i: u8, j: u8) -> u8
    ensures { result ≡ cutting.coefficient_of m i j }
{
    if j >= m {
        return 0;
    }
    if i < m {
        return u8::from(i == j);
    }
    weight(&points()[..usize::from(m)], j, i)
}

/// Adds `by` times the body to the sum, byte by byte, as far as both go.
pub fn add_scaled(sum: &mut [u8], body: &[u8], by: u8)
    ensures { sum.new ≡ adding.added by sum.old body.now }
{
    if body.len() < SHORT {
        field::add_products(sum, body, by);
        return;
    }
    let row = field::row(by);
    for k in 0..sum.len().min(body.len()) {
        sum[k] ^= row[usize::from(body[k])];
    }
}
