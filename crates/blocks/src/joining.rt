//! Joins: from any records that suffice, each refusal, and the order of the refusals.
use crate::setting::Setting;
use std::io;

pub(crate) fn run(rt: &HostRuntime) -> io::Result<()> {
    enough(rt)?;
    too_few(rt)?;
    no_spare(rt)?;
    check_record(rt)?;
    buffers(rt)?;
    fill(rt)?;
    order(rt)
}

// Document 01's example.
fn sound() -> Setting {
    Setting::cut(2, 156)
}

fn enough(rt: &HostRuntime) -> io::Result<()> {
    for (what, setting) in [
        ("all", sound()),
        ("the last two", sound().with_part(42, 84)),
        ("the first one bad", sound().with_records(18, b"\x09")),
        ("the same twice and another", repeated()),
    ] {
        join(rt, what, setting)?;
    }
    Ok(())
}

// 13.
fn too_few(rt: &HostRuntime) -> io::Result<()> {
    for (what, setting) in [
        ("one", sound().with_part(63, 84)),
        ("none", sound().with_part(0, 0)),
        ("the same twice", repeated().with_part(0, 42)),
    ] {
        join(rt, what, setting)?;
    }
    Ok(())
}

// Record 1 is record 0 over again.
fn repeated() -> Setting {
    sound().with_records(34, b"\x00\x00\x00\x00\x03\x01\x02\x03")
}

// 13 again: where m is n, every record counts.
fn no_spare(rt: &HostRuntime) -> io::Result<()> {
    for (what, setting) in [
        ("all, m = n", Setting::cut(4, 162)),
        ("all but one, m = n", Setting::cut(4, 162).with_part(0, 63)),
    ] {
        join(rt, what, setting)?;
    }
    Ok(())
}

// 5, 6 and 7.
fn check_record(rt: &HostRuntime) -> io::Result<()> {
    for (what, setting) in [
        ("no check record", sound().with_check_of(4)),
        ("a short check record", sound().with_check_of(155)),
        ("another block", sound().wanting(8)),
        (
            "a block that differs above 32 bits",
            sound().wanting(4294967303),
        ),
    ] {
        join(rt, what, setting)?;
    }
    Ok(())
}

// 4.
fn buffers(rt: &HostRuntime) -> io::Result<()> {
    for (what, setting) in [
        ("a short output", sound().with_output_of(5)),
        ("a long output", sound().with_output_of(7)),
        ("a byte too few", sound().with_part(1, 84)),
        ("five records", sound().with_fifth()),
    ] {
        join(rt, what, setting)?;
    }
    Ok(())
}

// 14.
fn fill(rt: &HostRuntime) -> io::Result<()> {
    join(rt, "a fill that is not zero", filled())
}

// Where L is 5, the block's sixth byte is fill.
fn filled() -> Setting {
    sound().with_check(16, b"\x05").with_output_of(5)
}

// Two apply at once: the first is given.
fn order(rt: &HostRuntime) -> io::Result<()> {
    for (what, setting) in [
        (
            "a wrong mark and another block",
            sound().with_check(0, b"M").wanting(8),
        ),
        (
            "a short check record and another block",
            sound().with_check_of(155).wanting(8),
        ),
        (
            "another block and a short output",
            sound().wanting(8).with_output_of(5),
        ),
        (
            "a short output and one record",
            sound().with_output_of(5).with_part(63, 84),
        ),
        (
            "one record and a fill that is not zero",
            filled().with_part(63, 84),
        ),
    ] {
        join(rt, what, setting)?;
    }
    Ok(())
}

// The answer, and the bytes 0 and 4 of the output.
fn join(rt: &HostRuntime, what: &str, setting: Setting) -> io::Result<()> {
    let mut out = [0xee; 7];
    if let Some(lent) = out.get_mut(..setting.output) {
        let answer = join::join(
            setting.wanted,
            setting.check.as_slice(),
            setting.records.as_slice(),
            lent,
        );
        let (number, (read, indexes)) = match answer {
            Ok(counts) => (0, (counts.read, counts.indexes)),
            Err(refusal) => (refusal.number(), refusal.values()),
        };
        println!(rt;
            "join from {what}: {number} {read} {indexes} {:02x} {:02x}",
            out[0], out[4]
        )?;
    }
    Ok(())
}
