//! The weights of all the points at once: a spread for each point is made once, and then each weight is a quotient.
ghost use Rattle.std.specs.Prelude.{◌≡◌, map};
ghost use Rattle.field.specs.Byte.{bytes, inverse};
ghost use Rattle.code.specs.Cutting as cutting;
ghost use Rattle.code.specs.Weights as weights;
ghost use Rattle.code.specs.Shares as shares;

use crate::{points, spread};

/// The spread of each point among all of them.
pub fn each_spread(points: &[u8], out: &mut [u8])
    ensures { out.new ≡ shares.overlaid (map (weights.spread bytes points.now) points.now) out.old }
{
    for k in 0..points.len().min(out.len()) {
        out[k] = spread(points, points[k]);
    }
}

/// The weight of each point at t, from the points' spreads. The loop is written twice, here and above, since all that it does is one call.
pub fn each_share(points: &[u8], spreads: &[u8], t: u8, out: &mut [u8])
    ensures { out.new ≡ shares.overlaid (shares.shares points.now spreads.now t) out.old }
{
    // Two slices and no struct: this is a public function whose promise is total, and a struct's fact would ask something of its caller.
    let whole = field::nodal(points, t);
    for k in 0..points.len().min(spreads.len()).min(out.len()) {
        out[k] = share(whole, points[k], spreads[k], t);
    }
}

/// How much each of the first m bodies counts in body i.
pub fn coefficients(m: u8, i: u8, out: &mut [u8])
    ensures { out.new ≡ shares.overlaid (map (cutting.coefficient_of m i) (cutting.points m)) out.old }
{
    let all = points();
    let count = usize::from(m);
    let mut room = [0u8; 255];
    each_spread(&all[..count], &mut room[..count]);
    each_share(&all[..count], &room[..count], i, out);
}

fn share(whole: u8, p: u8, spread: u8, t: u8) -> u8
    ensures { result ≡ shares.share bytes inverse whole p spread t }
{
    if t == p {
        return 1;
    }
    field::quotient(whole, field::times(field::plus(t, p), spread))
}
