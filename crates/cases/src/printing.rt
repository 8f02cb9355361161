//! Fingerprints: the worked ones, and each refusal on both sides of its bound.
use column::Column;
use std::io;

pub(crate) fn run(rt: &HostRuntime) -> io::Result<()> {
    let body = [1, 2, 3, 4, 5, 6];
    let zeros = [0; 65541];
    let cases: [(u32, &[u8]); 11] = [
        (0, &body),
        (1, &body),
        (256, &body),
        (256, &[1, 3, 3, 5, 5, 6]),
        (16777215, &zeros[..3]),
        (16777216, &zeros[..3]),
        (0, &zeros[..4]),
        (7, &[]),
        (1, &zeros[..65538]),
        (1, &zeros),
        (16777216, &zeros),
    ];
    for (seed, body) in cases {
        print(rt, seed, body)?;
    }
    Ok(())
}

fn print(rt: &HostRuntime, seed: u32, body: &[u8]) -> io::Result<()> {
    let length = body.len();
    let (number, Column { a, b, c }) = match fingerprint::fingerprint(seed, body) {
        Ok(print) => (0, print),
        Err(refusal) => (refusal.number(), Column::ZERO),
    };
    println!(rt; "fingerprint at seed, of length {seed} {length}: {number} {a:02x} {b:02x} {c:02x}")
}
