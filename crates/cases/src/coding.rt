//! The code: how long a body is, and the coefficients.
use std::io;

pub(crate) fn run(rt: &HostRuntime) -> io::Result<()> {
    for (l, m) in [(0, 1), (1, 1), (6, 2), (7, 2), (65536, 8), (65536, 1)] {
        let length = code::body_length(l, m);
        println!(rt; "F for L, m {l} {m} {length}")?;
    }
    for (m, i) in [(2, 2), (3, 3), (3, 4)] {
        for j in 0..m {
            let coefficient = code::coefficient(m, i, j);
            println!(rt; "coefficient for m, i, j {m} {i} {j} {coefficient:02x}")?;
        }
    }
    Ok(())
}
