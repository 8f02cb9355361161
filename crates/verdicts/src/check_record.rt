//! 5, 6 and 7: the check record, and the wanted number.
use crate::input::Change::{Check, CheckLength, Fragment, Wanted};
use crate::records::PRINTS;
use crate::told;
use std::io;

pub(crate) fn run(rt: &HostRuntime) -> io::Result<()> {
    mark(rt)?;
    version(rt)?;
    length(rt)?;
    counts(rt)?;
    heads(rt)?;
    block(rt)?;
    number(rt)?;
    wanted(rt)
}

fn mark(rt: &HostRuntime) -> io::Result<()> {
    told::four(
        rt,
        &[
            ("check record of 0 bytes", &[CheckLength(0)]),
            ("check record of 4 bytes", &[CheckLength(4)]),
            ("check record of 5 bytes", &[CheckLength(5)]),
            ("check mark MCK", &[Check(0, b"MCK")]),
            ("check mark LDK", &[Check(0, b"LDK")]),
            ("check mark LCL", &[Check(0, b"LCL")]),
            ("check mark LFR", &[Check(0, b"LFR")]),
        ],
    )
}

fn version(rt: &HostRuntime) -> io::Result<()> {
    told::four(
        rt,
        &[
            ("check version 0", &[Check(3, b"\x00\x00")]),
            ("check version 2", &[Check(3, b"\x00\x02")]),
            ("check version 257", &[Check(3, b"\x01\x01")]),
        ],
    )
}

fn length(rt: &HostRuntime) -> io::Result<()> {
    told::four(
        rt,
        &[
            ("check record of 21 bytes", &[CheckLength(21)]),
            ("check record of 22 bytes", &[CheckLength(22)]),
            ("check record of 155 bytes", &[CheckLength(155)]),
            ("check record of 156 bytes", &[CheckLength(156)]),
            ("check record of 157 bytes", &[CheckLength(157)]),
        ],
    )
}

// Another L and other counts, the length that they call for, and the fingerprints where they then are.
fn counts(rt: &HostRuntime) -> io::Result<()> {
    told::four(
        rt,
        &[
            ("m 0, n 0", &[Check(16, b"\x06\x00\x00"), CheckLength(22)]),
            ("m 0, n 4", &[Check(16, b"\x06\x00\x04"), CheckLength(150)]),
            (
                "m 4, n 4",
                &[
                    Check(16, b"\x0c\x04\x04"),
                    CheckLength(162),
                    Check(150, &PRINTS),
                ],
            ),
            (
                "m 5, n 4",
                &[
                    Check(16, b"\x0f\x05\x04"),
                    CheckLength(165),
                    Check(150, &PRINTS),
                ],
            ),
        ],
    )
}

// n on both sides of its bound.
fn heads(rt: &HostRuntime) -> io::Result<()> {
    told::four(
        rt,
        &[
            (
                "m 2, n 64",
                &[
                    Check(16, b"\x06\x02\x40"),
                    CheckLength(2076),
                    Check(2070, b"\x01\x02\x03\x04\x05\x06"),
                ],
            ),
            (
                "m 2, n 65",
                &[
                    Check(16, b"\x06\x02\x41"),
                    CheckLength(2108),
                    Check(2102, b"\x01\x02\x03\x04\x05\x06"),
                ],
            ),
        ],
    )
}

fn block(rt: &HostRuntime) -> io::Result<()> {
    told::four(
        rt,
        &[
            ("L 65536", &[Check(13, b"\x00\x01\x00\x00")]),
            ("L 65537", &[Check(13, b"\x00\x01\x00\x01")]),
            ("L 16777222", &[Check(13, b"\x01\x00\x00\x06")]),
        ],
    )
}

fn number(rt: &HostRuntime) -> io::Result<()> {
    told::four(
        rt,
        &[
            ("check number 8", &[Check(12, b"\x08")]),
            ("check number 65543", &[Check(10, b"\x01")]),
            ("check number 4294967303", &[Check(8, b"\x01")]),
            ("check number 72057594037927943", &[Check(5, b"\x01")]),
        ],
    )
}

fn wanted(rt: &HostRuntime) -> io::Result<()> {
    let most = &u64::MAX.to_be_bytes();
    told::four(
        rt,
        &[
            ("wanted 7", &[Wanted(7)]),
            ("wanted 65543", &[Wanted(65543)]),
            ("wanted 72057594037927943", &[Wanted(72057594037927943)]),
            (
                "number 18446744073709551615",
                &[Wanted(u64::MAX), Check(5, most), Fragment(5, most)],
            ),
        ],
    )
}
