//! Cuts: each refusal on both sides of its bound, the order of the refusals, and the standard setting.
use std::io;

// A cut of so many bytes 01 into so many bytes of each buffer.
#[derive(Clone, Copy)]
struct Case {
    m: u32,
    n: u32,
    seed: u32,
    length: usize,
    records: usize,
    check: usize,
}

// Refused by none.
const SOUND: Case = Case {
    m: 2,
    n: 4,
    seed: 0,
    length: 6,
    records: 84,
    check: 156,
};

pub(crate) fn run(rt: &HostRuntime) -> io::Result<()> {
    counts(rt)?;
    other_counts(rt)?;
    lengths(rt)?;
    seeds(rt)?;
    buffers(rt)?;
    order(rt)?;
    for records in [252, 251] {
        standard(rt, records)?;
    }
    for length in [0, 6, 65536, 65537] {
        card_size(rt, length)?;
    }
    Ok(())
}

// 1. Where m is n there is none to spare.
fn counts(rt: &HostRuntime) -> io::Result<()> {
    for n in [64, 65] {
        let case = Case {
            m: 1,
            n,
            records: 1536,
            check: 2073,
            ..SOUND
        };
        cut(rt, case)?;
    }
    for m in [4, 5, 0] {
        let case = Case {
            m,
            check: 162,
            ..SOUND
        };
        cut(rt, case)?;
    }
    Ok(())
}

// 0 of 0, and counts that no byte holds.
fn other_counts(rt: &HostRuntime) -> io::Result<()> {
    for count in [0, 300, u32::MAX] {
        let case = Case {
            m: count,
            n: count,
            check: 162,
            ..SOUND
        };
        cut(rt, case)?;
    }
    Ok(())
}

// 2.
fn lengths(rt: &HostRuntime) -> io::Result<()> {
    for case in [
        Case {
            m: 1,
            n: 1,
            length: 65536,
            records: 65556,
            check: 57,
            ..SOUND
        },
        Case {
            length: 65537,
            ..SOUND
        },
        Case {
            length: 0,
            records: 72,
            ..SOUND
        },
    ] {
        cut(rt, case)?;
    }
    Ok(())
}

// 3.
fn seeds(rt: &HostRuntime) -> io::Result<()> {
    for seed in [16777215, 16777216, u32::MAX] {
        cut(rt, Case { seed, ..SOUND })?;
    }
    Ok(())
}

// 4.
fn buffers(rt: &HostRuntime) -> io::Result<()> {
    for records in [83, 85] {
        cut(rt, Case { records, ..SOUND })?;
    }
    for check in [155, 157] {
        cut(rt, Case { check, ..SOUND })?;
    }
    Ok(())
}

// Where several apply, the first is given.
fn order(rt: &HostRuntime) -> io::Result<()> {
    let none = Case {
        seed: 16777216,
        records: 0,
        check: 0,
        ..SOUND
    };
    for case in [
        Case {
            m: 0,
            length: 65537,
            ..none
        },
        Case {
            length: 65537,
            ..none
        },
        none,
    ] {
        cut(rt, case)?;
    }
    Ok(())
}

// The first byte of each buffer is then 4C, of a mark, or what was there.
fn cut(rt: &HostRuntime, case: Case) -> io::Result<()> {
    let Case {
        m,
        n,
        seed,
        length,
        records,
        check,
    } = case;
    let block = [1; 65537];
    let mut fragments = [0xee; 65556];
    let mut summary = [0xee; 2073];
    if let (Some(block), Some(lent), Some(other)) = (
        block.get(..length),
        fragments.get_mut(..records),
        summary.get_mut(..check),
    ) {
        let number = refusal::number_in(cut::cut(m, n, seed, 7, block, lent, other));
        println!(rt;
            "cut m, n, seed, L, buffers {m} {n} {seed} {length} {records} {check}: {number} {:02x} {:02x}",
            fragments[0], summary[0]
        )?;
    }
    Ok(())
}

// Eight of twelve, with so many bytes for the records.
fn standard(rt: &HostRuntime, records: usize) -> io::Result<()> {
    let mut fragments = [0xee; 252];
    let mut summary = [0xee; 430];
    let block = [1, 1, 1, 1, 1, 1];
    if let Some(lent) = fragments.get_mut(..records) {
        let number = refusal::number_in(cut::cut_standard(0, 7, &block, lent, &mut summary));
        println!(rt;
            "cut in the standard setting, L, buffers 6 {records} 430: {number} {:02x} {:02x}",
            fragments[0], summary[0]
        )?;
    }
    Ok(())
}

fn card_size(rt: &HostRuntime, length: u64) -> io::Result<()> {
    let (number, size) = match cut::card_size(length) {
        Ok(size) => (0, size),
        Err(refusal) => (refusal.number(), 0),
    };
    println!(rt; "card size for L {length}: {number} {size}")
}
