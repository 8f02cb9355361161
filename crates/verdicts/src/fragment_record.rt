//! 8, 9 and 10: the fragment record.
use crate::input::Change::{Check, Fragment, FragmentLength};
use crate::records::HASH_OF_NONE;
use crate::told;
use std::io;

pub(crate) fn run(rt: &HostRuntime) -> io::Result<()> {
    length(rt)?;
    mark(rt)?;
    version(rt)?;
    size(rt)?;
    empty(rt)?;
    number(rt)?;
    index(rt)
}

fn length(rt: &HostRuntime) -> io::Result<()> {
    told::four(
        rt,
        &[
            ("fragment of 0 bytes", &[FragmentLength(0)]),
            ("fragment of 17 bytes", &[FragmentLength(17)]),
            ("fragment of 18 bytes", &[FragmentLength(18)]),
            ("fragment of 20 bytes", &[FragmentLength(20)]),
            ("fragment of 21 bytes", &[FragmentLength(21)]),
            ("fragment of 22 bytes", &[FragmentLength(22)]),
        ],
    )
}

fn mark(rt: &HostRuntime) -> io::Result<()> {
    told::four(
        rt,
        &[
            ("fragment mark MFR", &[Fragment(0, b"MFR")]),
            ("fragment mark LGR", &[Fragment(0, b"LGR")]),
            ("fragment mark LFS", &[Fragment(0, b"LFS")]),
            ("fragment mark LCK", &[Fragment(0, b"LCK")]),
        ],
    )
}

fn version(rt: &HostRuntime) -> io::Result<()> {
    told::four(
        rt,
        &[
            ("fragment version 0", &[Fragment(3, b"\x00\x00")]),
            ("fragment version 2", &[Fragment(3, b"\x00\x02")]),
            ("fragment version 257", &[Fragment(3, b"\x01\x01")]),
        ],
    )
}

// In the last one the record's F and its length agree with each other, and not with the check record.
fn size(rt: &HostRuntime) -> io::Result<()> {
    told::four(
        rt,
        &[
            ("F 2", &[Fragment(14, b"\x00\x00\x00\x02")]),
            ("F 4", &[Fragment(14, b"\x00\x00\x00\x04")]),
            ("F 65539", &[Fragment(14, b"\x00\x01\x00\x03")]),
            ("F 16777219", &[Fragment(14, b"\x01\x00\x00\x03")]),
            (
                "F 4 and a body of 4 bytes",
                &[Fragment(14, b"\x00\x00\x00\x04"), FragmentLength(22)],
            ),
        ],
    )
}

// The records of an empty block, whose fragment records are as short as they can be.
fn empty(rt: &HostRuntime) -> io::Result<()> {
    for (what, length) in [
        ("empty block, fragment of 17 bytes", 17),
        ("empty block, fragment of 18 bytes", 18),
    ] {
        told::four(
            rt,
            &[(
                what,
                &[
                    Check(13, b"\x00\x00\x00\x00"),
                    Check(86, &HASH_OF_NONE),
                    Check(150, b"\x00\x00\x00\x00\x00\x00"),
                    Fragment(14, b"\x00\x00\x00\x00"),
                    FragmentLength(length),
                ],
            )],
        )?;
    }
    Ok(())
}

fn number(rt: &HostRuntime) -> io::Result<()> {
    told::four(
        rt,
        &[
            ("fragment number 8", &[Fragment(12, b"\x08")]),
            ("fragment number 65543", &[Fragment(10, b"\x01")]),
            ("fragment number 4294967303", &[Fragment(8, b"\x01")]),
            ("fragment number 72057594037927943", &[Fragment(5, b"\x01")]),
        ],
    )
}

fn index(rt: &HostRuntime) -> io::Result<()> {
    told::four(
        rt,
        &[
            ("index 3 and body 2", &[Fragment(13, b"\x03")]),
            ("index 4", &[Fragment(13, b"\x04")]),
            ("index 255", &[Fragment(13, b"\xff")]),
        ],
    )
}
