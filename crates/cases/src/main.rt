//! Runs document 01's numbers through the code and prints what comes out, a line for each. The file `stdout` beside src/ holds what
//! the document says: bytes in hexadecimal, other numbers in decimal.
#![tactic(auto)]

mod bytes;
mod coding;
mod printing;

use std::io;

fn main(rt: HostRuntime) -> io::Result<()> {
    bytes::run(&rt)?;
    coding::run(&rt)?;
    printing::run(&rt)
}
