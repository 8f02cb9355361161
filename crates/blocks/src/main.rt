//! Cuts and joins blocks on each side of each bound that refuses them, and prints what comes out, a line for each. The file `stdout`
//! beside src/ holds what document 01 says: bytes in hexadecimal, other numbers in decimal.
#![tactic(auto)]

mod cutting;
mod joining;
mod setting;

use std::io;

fn main(rt: HostRuntime) -> io::Result<()> {
    cutting::run(&rt)?;
    joining::run(&rt)
}
