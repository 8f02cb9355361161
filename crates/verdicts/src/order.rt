//! Two reasons apply at once: the first is given.
use crate::input::Change::{Check, Fragment};
use crate::told;
use std::io;

pub(crate) fn run(rt: &HostRuntime) -> io::Result<()> {
    told::four(
        rt,
        &[
            (
                "check version 2 and number 8",
                &[Check(3, b"\x00\x02\x00\x00\x00\x00\x00\x00\x00\x08")],
            ),
            (
                "check number 8 and m 0",
                &[Check(12, b"\x08\x00\x00\x00\x06\x00")],
            ),
            (
                "check number 8, fragment version 2",
                &[Check(12, b"\x08"), Fragment(3, b"\x00\x02")],
            ),
            (
                "fragment version 2 and number 8",
                &[Fragment(3, b"\x00\x02\x00\x00\x00\x00\x00\x00\x00\x08")],
            ),
            (
                "fragment number 8 and index 4",
                &[Fragment(12, b"\x08\x04")],
            ),
            (
                "index 4 and body 0A0C09",
                &[Fragment(13, b"\x04\x00\x00\x00\x03\x0a")],
            ),
            (
                "body 0A0C09 and fingerprint 0",
                &[Check(150, b"\x00"), Fragment(18, b"\x0a")],
            ),
        ],
    )
}
