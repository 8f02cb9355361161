//! Runs all products and all inverses of bytes against a second way of computing them, and prints how many agree.
//! The second way takes nothing from a table: long multiplication without carries, and long division by 11b.
#![tactic(auto)]

ghost use Rattle.std.specs.Prelude.{◌≤◌};

use std::io;

fn main(rt: HostRuntime) -> io::Result<()> {
    println!(rt; "products {} of 65536", agreeing_products())?;
    println!(rt; "inverses {} of 255", agreeing_inverses())
}

// Each pair of bytes is one number of two bytes.
fn agreeing_products() -> usize
    ensures { result ≤ 65536 }
{
    (0..=u16::MAX)
        .map(u16::to_be_bytes)
        .filter(|[a, b]| u16::from(field::times(*a, *b)) == second_product(*a, *b))
        .count()
}

fn agreeing_inverses() -> usize {
    (1..=255)
        .filter(|a| second_inverse(*a) == Some(field::inverse(*a)))
        .count()
}

// The least b whose product with `a` is 1.
fn second_inverse(a: u8) -> Option<u8> {
    (0..=255).find(|b| second_product(a, *b) == 1)
}

fn second_product(a: u8, b: u8) -> u16 {
    remainder(long_product(a, b))
}

// The sum of a times x^k over the eight digits k of b: up to fifteen digits.
fn long_product(a: u8, b: u8) -> u16 {
    let mut sum = 0;
    for k in 0..8u8 {
        if (b >> k) & 1 == 1 {
            sum ^= u16::from(a) << k;
        }
    }
    sum
}

// What x^8 + x^4 + x^3 + x + 1 leaves of fifteen digits.
fn remainder(digits: u16) -> u16 {
    let mut left = digits;
    for k in (0..7u8).rev() {
        if (left >> (k + 8)) & 1 == 1 {
            left ^= 0x11b << k;
        }
    }
    left
}
