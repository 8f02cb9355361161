//! Bytes and columns: products, inverses, the powers of 03 at the table's two ends, the square of a column.
use column::Column;
use std::io;

pub(crate) fn run(rt: &HostRuntime) -> io::Result<()> {
    for (a, b) in [(0x57, 0x83), (0x57, 0x13), (0x03, 0x03)] {
        let product = field::times(a, b);
        println!(rt; "product {a:02x} {b:02x} {product:02x}")?;
    }
    for a in [0x02, 0x00] {
        let inverse = field::inverse(a);
        println!(rt; "inverse {a:02x} {inverse:02x}")?;
    }
    for k in [255, 509] {
        let power = power_of_three(k);
        println!(rt; "03 to the power {k} {power:02x}")?;
    }
    let u = Column { a: 0, b: 0, c: 1 };
    let Column { a, b, c } = u * u;
    println!(rt;
        "square of {:02x} {:02x} {:02x} {a:02x} {b:02x} {c:02x}",
        u.a, u.b, u.c
    )
}

fn power_of_three(k: u64) -> u8 {
    (0..k).fold(1, |p, _| field::times(p, 3))
}
