//! The six functions on words of 32 bits (FIPS 180-4, 4.1.2). They are written with the fewest operations: a rotation by 13 is
//! one by 2 of one by 11. `proofs/Shorter.antt` shows that they are the standard's.
ghost use Rattle.std.specs.Prelude.{◌≡◌};
ghost use Rattle.sha256.specs.Fips180.{Ch as fips_Ch, Maj as fips_Maj, Σ₀, Σ₁, σ₀, σ₁};

#[tactic(auto, using(crate::proofs::Shorter::choice))]
pub(crate) fn ch(x: u32, y: u32, z: u32) -> u32
    ensures { result ≡ fips_Ch x y z }
{
    ((y ^ z) & x) ^ z
}

#[tactic(auto, using(crate::proofs::Shorter::majority))]
pub(crate) fn maj(x: u32, y: u32, z: u32) -> u32
    ensures { result ≡ fips_Maj x y z }
{
    ((x ^ y) & (y ^ z)) ^ y
}

pub(crate) fn upper_sigma_0(x: u32) -> u32
    ensures { result ≡ Σ₀ x }
{
    (x ^ (x ^ x.rotate_right(9)).rotate_right(11)).rotate_right(2)
}

pub(crate) fn upper_sigma_1(x: u32) -> u32
    ensures { result ≡ Σ₁ x }
{
    (x ^ (x ^ x.rotate_right(14)).rotate_right(5)).rotate_right(6)
}

pub(crate) fn lower_sigma_0(x: u32) -> u32
    ensures { result ≡ σ₀ x }
{
    (x ^ x.rotate_right(11)).rotate_right(7) ^ (x >> 3)
}

pub(crate) fn lower_sigma_1(x: u32) -> u32
    ensures { result ≡ σ₁ x }
{
    (x ^ x.rotate_right(2)).rotate_right(17) ^ (x >> 10)
}
