//! Three bytes as a column, a value: `ZERO`, `ONE`, the column of a seed number; sums, multiples by a byte and products.
//! Column (a, b, c) is a + b x + c x^2 modulo x^3 + x + 1. No function asks anything of its caller.
#![tactic(auto)]

pub mod stated;

ghost use Rattle.std.specs.Prelude.{◌≡◌, [], ◌∷◌};
ghost use Rattle.column.specs.Column as column;

use std::ops::{Add, Mul};

#[derive(Clone, Copy, Debug, Default, PartialEq, Eq, Hash)]
pub struct Column {
    pub a: u8,
    pub b: u8,
    pub c: u8,
}

impl Column {
    pub const ZERO: Column = Column { a: 0, b: 0, c: 0 };

    pub const ONE: Column = Column { a: 1, b: 0, c: 0 };

    /// The column of a seed number; of a number over the largest seed the zero column.
    #[tactic(auto, unfolding(crate::specs::Column::from_seed))]
    pub fn from_seed(seed: u32) -> Column
        ensures { result ≡ column.from_seed seed }
    {
        if seed > limits::LARGEST_SEED {
            return Column::ZERO;
        }
        let [a, b, c, _] = seed.to_le_bytes();
        Column { a, b, c }
    }

    /// Its three bytes in coefficient order.
    pub fn to_bytes(self) -> [u8; 3]
        ensures { result ≡ self.a ∷ self.b ∷ self.c ∷ [] }
    {
        [self.a, self.b, self.c]
    }

    // Methods beside the operators, which call them: document 01's list of forms asks for methods with self.
    #[tactic(auto, unfolding(crate::specs::Column::plus))]
    pub fn plus(self, other: Column) -> Column
        ensures { result ≡ column.plus self other }
    {
        Column {
            a: field::plus(self.a, other.a),
            b: field::plus(self.b, other.b),
            c: field::plus(self.c, other.c),
        }
    }

    #[tactic(auto, unfolding(crate::specs::Column::scaled))]
    pub fn scaled(self, by: u8) -> Column
        ensures { result ≡ column.scaled by self }
    {
        Column {
            a: field::times(by, self.a),
            b: field::times(by, self.b),
            c: field::times(by, self.c),
        }
    }

    /// Times x, where x^3 is x + 1.
    #[tactic(auto, unfolding(crate::specs::Column::shifted), using(field::proofs::Sum::plus_comm))]
    pub fn shifted(self) -> Column
        ensures { result ≡ column.shifted self }
    {
        Column {
            a: self.c,
            b: field::plus(self.a, self.c),
            c: self.b,
        }
    }

    /// By Horner's rule on the other's three bytes.
    #[tactic(auto, unfolding(crate::specs::Column::plus, crate::specs::Column::scaled, crate::specs::Column::shifted, crate::specs::Column::times))]
    pub fn times(self, other: Column) -> Column
        ensures { result ≡ column.times self other }
    {
        let high = (self * other.c).shifted();
        let middle = (self * other.b + high).shifted();
        self * other.a + middle
    }
}

// The column of three bytes in coefficient order.
impl From<[u8; 3]> for Column {
    ghost from_gives = { λ bytes u. u ≡ column.of_bytes bytes };

    fn from(bytes: [u8; 3]) -> Column {
        let [a, b, c] = bytes;
        Column { a, b, c }
    }
}

// The column of the first three bytes in coefficient order, zero where there are fewer.
impl<'a> From<&'a [u8]> for Column {
    ghost from_gives = { λ bytes u. u ≡ column.of_bytes bytes.now };

    fn from(bytes: &'a [u8]) -> Column {
        match bytes {
            [a, b, c, ..] => Column {
                a: *a,
                b: *b,
                c: *c,
            },
            [a, b] => Column { a: *a, b: *b, c: 0 },
            [a] => Column { a: *a, b: 0, c: 0 },
            [] => Column::ZERO,
        }
    }
}

impl Add for Column {
    type Output = Column;

    ghost add_gives = { λ u v sum. sum ≡ column.plus u v };

    fn add(self, other: Column) -> Column {
        self.plus(other)
    }
}

// The multiple by a byte.
impl Mul<u8> for Column {
    type Output = Column;

    ghost mul_gives = { λ u by multiple. multiple ≡ column.scaled by u };

    fn mul(self, by: u8) -> Column {
        self.scaled(by)
    }
}

impl Mul for Column {
    type Output = Column;

    ghost mul_gives = { λ u v product. product ≡ column.times u v };

    fn mul(self, other: Column) -> Column {
        self.times(other)
    }
}
