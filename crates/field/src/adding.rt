//! A multiple of bytes added to others, each product taken by itself: for fewer bytes than a row of products is worth.
ghost use Rattle.std.specs.Prelude.{◌≡◌, ◌<◌};
ghost use Rattle.field.specs.Adding as adding;
ghost use Rattle.field.specs.Byte as byte;

use crate::tables::{place, power};

/// Adds `by` times each factor to the sum, byte by byte, as far as both go.
pub fn add_products(sum: &mut [u8], factors: &[u8], by: u8)
    ensures { sum.new ≡ adding.added by sum.old factors.now }
{
    if by == 0 {
        return;
    }
    let at = place(by);
    for k in 0..sum.len().min(factors.len()) {
        sum[k] ^= multiple(at, factors[k]);
    }
}

// The factor times the power at a place. What is read for 00 says nothing: it is multiplied away, so that no jump hangs on a byte.
fn multiple(at: usize, factor: u8) -> u8
    requires { at < 255 }
    ensures { result ≡ byte.times (byte.power 3 at) factor }
{
    let counts = u8::from(factor != 0);
    counts * power(at + place(factor))
}
