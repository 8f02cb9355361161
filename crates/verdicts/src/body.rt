//! 11 and 12: the hash and the fingerprint of the body. To reach 12 the hash in the check record is that of the body at hand.
use crate::input::Change::{Check, Fragment};
use crate::records::{HASH_OF_TWIN, HASH_OF_WRONG};
use crate::told;
use std::io;

pub(crate) fn run(rt: &HostRuntime) -> io::Result<()> {
    hash(rt)?;
    print(rt)?;
    first(rt)?;
    seed(rt)?;
    twin(rt)
}

fn hash(rt: &HostRuntime) -> io::Result<()> {
    told::four(
        rt,
        &[
            ("body 0A0C09", &[Fragment(18, b"\x0a")]),
            ("body 0B0C08", &[Fragment(20, b"\x08")]),
            ("hash 1, last byte", &[Check(85, b"\x00")]),
            ("hash 2, first byte", &[Check(86, b"\x00")]),
            ("hash 2, last byte", &[Check(117, b"\x00")]),
            ("hash 3, first byte", &[Check(118, b"\x00")]),
            (
                "body 0B0C08 and its hash",
                &[Check(86, &HASH_OF_WRONG), Fragment(20, b"\x08")],
            ),
        ],
    )
}

fn print(rt: &HostRuntime) -> io::Result<()> {
    told::four(
        rt,
        &[
            ("fingerprint 0, byte a", &[Check(150, b"\x00")]),
            ("fingerprint 0, byte b", &[Check(151, b"\x00")]),
            ("fingerprint 0, byte c", &[Check(152, b"\x00")]),
            ("fingerprint 1, byte a", &[Check(153, b"\x00")]),
            ("fingerprint 1, byte c", &[Check(155, b"\x00")]),
            ("seed 1, body of one column", &[Check(19, b"\x01\x00\x00")]),
        ],
    )
}

// Fragment 0 calls for fingerprint 0 and for no other.
fn first(rt: &HostRuntime) -> io::Result<()> {
    told::four(
        rt,
        &[
            (
                "fingerprint 0, fragment 0",
                &[
                    Check(150, b"\x00"),
                    Fragment(13, b"\x00\x00\x00\x00\x03\x01\x02\x03"),
                ],
            ),
            (
                "fingerprint 1, fragment 0",
                &[
                    Check(153, b"\x00"),
                    Fragment(13, b"\x00\x00\x00\x00\x03\x01\x02\x03"),
                ],
            ),
        ],
    )
}

// One body of two columns, of which the fingerprint depends on the seed.
fn seed(rt: &HostRuntime) -> io::Result<()> {
    told::one(
        rt,
        &[
            ("two columns, seed 256", &[]),
            ("two columns, seed 1", &[Check(19, b"\x01\x00\x00")]),
            (
                "two columns, seed 1 and its fingerprint",
                &[Check(19, b"\x01\x00\x00"), Check(54, b"\x05\x07\x05")],
            ),
        ],
    )
}

// Document 01's two bodies that agree at seed 256 alone.
fn twin(rt: &HostRuntime) -> io::Result<()> {
    told::one(
        rt,
        &[
            (
                "body 010303050506 and its hash, seed 256",
                &[
                    Check(22, &HASH_OF_TWIN),
                    Fragment(18, b"\x01\x03\x03\x05\x05\x06"),
                ],
            ),
            (
                "body 010303050506 and its hash, seed 1",
                &[
                    Check(22, &HASH_OF_TWIN),
                    Fragment(18, b"\x01\x03\x03\x05\x05\x06"),
                    Check(19, b"\x01\x00\x00"),
                    Check(54, b"\x05\x07\x05"),
                ],
            ),
        ],
    )
}
