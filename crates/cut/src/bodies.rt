//! A body of a block, written where it belongs: the block's own bytes, or the sum of its own bodies by their coefficients.
ghost use Rattle.std.specs.Prelude.{◌≡◌, map, ℕ, ◌*◌, ◌<◌, length, get_or, take, drop, replicate};
ghost use Rattle.field.specs.Byte.{bytes};
ghost use Rattle.code.specs.Cutting as cutting;
ghost use Rattle.code.specs.Weights as weights;

// A block and what its bodies of `size` bytes are made with: the points of its m own bodies and their spreads, made once for all.
#[derive(Clone, Copy)]
pub(crate) struct Bodies<'a> {
    pub(crate) m: u8,
    pub(crate) size: u32,
    pub(crate) block: &'a [u8],
    pub(crate) points: &'a [u8],
    pub(crate) spreads: &'a [u8],
    ghost block_bytes: { (k : ℕ) → get_or block.now k 0 < 256 },
    ghost points_value: { points.now ≡ cutting.points m },
    ghost spreads_value: { spreads.now ≡ map (weights.spread bytes points.now) points.now },
}

impl<'a> Bodies<'a> {
    // Body `index`, for a part of exactly `size` bytes.
    pub(crate) fn write_body(&self, out: &mut [u8], index: u8)
        requires { length out.old ≡ self.now.size }
        ensures { out.new ≡ cutting.body self.now.m self.now.size self.now.block.now index }
    {
        out.fill(0);
        if index < self.m {
            record::put(out, self.own(index));
            return;
        }
        let mut room = [0u8; 255];
        let count = usize::from(self.m);
        code::each_share(self.points, self.spreads, index, &mut room[..count]);
        self.add_all(out, index, &room[..count]);
    }

    // Adds each of the block's own bodies, scaled by its coefficient in body `index`, to zero bytes.
    fn add_all(&self, out: &mut [u8], index: u8, coefficients: &[u8])
        requires out_value { out.old ≡ replicate self.now.size 0 }
        requires coefficients_value { coefficients.now ≡ map (cutting.coefficient_of self.now.m index) (cutting.points self.now.m) }
        ensures { out.new ≡ cutting.body self.now.m self.now.size self.now.block.now index }
    {
        for j in (0..self.m).rev() {
            code::add_scaled(out, self.own(j), coefficients[usize::from(j)]);
        }
    }

    // The block's bytes of body j: fewer than `size`, or none, where the block ends before. What is missing counts as zero bytes.
    fn own(&self, j: u8) -> &[u8]
        ensures { result.now ≡ take self.now.size (drop (j * self.now.size) self.now.block.now) }
    {
        part(self.block, usize::from(j) * self.size as usize, self.size)
    }
}

// `size` bytes from `at` on; fewer, or none, where the bytes end before.
pub(crate) fn part(bytes: &[u8], at: usize, size: u32) -> &[u8]
    ensures { result.now ≡ take size (drop at bytes.now) }
{
    let behind = &bytes[at.min(bytes.len())..];
    &behind[..behind.len().min(size as usize)]
}
