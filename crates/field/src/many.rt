//! Products over many points. A product under way is kept as its place among the powers of 03; it has none once a factor was 0.
ghost use Rattle.std.specs.Prelude.{◌≡◌, ◌<◌, IfSome};
ghost use Rattle.algebra.specs.Polynomial as polynomial;
ghost use Rattle.field.specs.Byte as byte;

use crate::plus;
use crate::tables::{place, power};

/// The product of t + q over all the points q.
pub fn nodal(points: &[u8], t: u8) -> u8
    ensures { result ≡ polynomial.nodal byte.bytes points.now t }
{
    let mut product = Some(0);
    for k in (0..points.len()).rev() {
        product = grown(product, plus(t, points[k]));
    }
    settled(product)
}

/// The product of t + q over the points q that are not p. Beside `nodal`: one body for both would have to carry an Option of the point
/// that is left out, and look at it in every turn.
pub fn spread_but(points: &[u8], p: u8, t: u8) -> u8
    ensures { result ≡ polynomial.spread_but byte.bytes points.now p t }
{
    let mut product = Some(0);
    for k in (0..points.len()).rev() {
        let q = points[k];
        if p != q {
            product = grown(product, plus(t, q));
        }
    }
    settled(product)
}

// One factor more: the powers of 03 repeat after 255.
fn grown(product: Option<usize>, factor: u8) -> Option<usize>
    requires { IfSome product (λ k. k < 255) }
    ensures bound { IfSome result (λ k. k < 255) }
    ensures value { byte.product_at result ≡ byte.times factor (byte.product_at product) }
{
    let product = product?;
    if factor == 0 {
        return None;
    }
    let sum = place(factor) + product;
    Some(if sum < 255 { sum } else { sum - 255 })
}

fn settled(product: Option<usize>) -> u8
    requires { IfSome product (λ k. k < 255) }
    ensures { result ≡ byte.product_at product }
{
    match product {
        Some(k) => power(k),
        None => 0,
    }
}
