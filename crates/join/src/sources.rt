//! The records that a join uses: where they lie, and what the weights of their bodies are made from.
ghost use Rattle.std.specs.Prelude.{◌≡◌, map, ◌≤◌, length, take};
ghost use Rattle.std.proofs.Props.{props};
ghost use Rattle.join.specs.Fit.{Fit, all_prop, distinct_prop};
ghost use Rattle.join.specs.Parts.{places};

use gather::Used;

// `indexes` and `spreads` go with `used`, entry by entry; record k starts at k x `stride`, and its last `size` bytes are its body.
#[derive(Clone, Copy)]
pub(crate) struct Sources<'a> {
    pub(crate) records: &'a [u8],
    pub(crate) stride: usize,
    pub(crate) size: usize,
    pub(crate) used: &'a [Used],
    pub(crate) indexes: &'a [u8],
    pub(crate) spreads: &'a [u8],
    ghost fit: { Fit records.now stride size indexes.now spreads.now (places used.now) } by { Prim.hlevel (all_prop, distinct_prop, props) },
}

// The used records' indexes by themselves, in front of zeros, since `code` takes the indexes as bytes.
pub(crate) fn apart(used: &[Used]) -> [u8; 255]
    requires { length used.now ≤ 255 }
    ensures { take (length used.now) result ≡ map (λ u. u.index) used.now }
{
    let mut indexes = [0u8; 255];
    for k in 0..used.len() {
        indexes[k] = used[k].index;
    }
    indexes
}
