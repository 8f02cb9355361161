//! Runs a check on inputs on each side of each condition of 5 to 12, and prints a line for each: what was changed in the sound records,
//! the number, the value beside it, and how many bytes are opened. The file `stdout` beside src/ holds what document 01 says.
#![tactic(auto)]

mod body;
mod check_record;
mod fragment_record;
mod input;
mod order;
mod records;
mod told;

use input::Change::Fragment;
use std::io;

fn main(rt: HostRuntime) -> io::Result<()> {
    sound(&rt)?;
    check_record::run(&rt)?;
    fragment_record::run(&rt)?;
    body::run(&rt)?;
    order::run(&rt)
}

// Every fragment of document 01's example.
fn sound(rt: &HostRuntime) -> io::Result<()> {
    told::four(
        rt,
        &[
            (
                "fragment 0",
                &[Fragment(13, b"\x00\x00\x00\x00\x03\x01\x02\x03")],
            ),
            (
                "fragment 1",
                &[Fragment(13, b"\x01\x00\x00\x00\x03\x04\x05\x06")],
            ),
            ("fragment 2", &[]),
            (
                "fragment 3",
                &[Fragment(13, b"\x03\x00\x00\x00\x03\x0e\x0b\x0c")],
            ),
        ],
    )
}
