//! The program: reads m, n, a seed column, a block number and a block, and prints what `tell` makes of them.
#![tactic(auto)]

ghost use Rattle.std.specs.Prelude.{◌≤◌, length};

use std::io::{Read, Write};

// One byte more than an input may have shows that there are too many.
fn main(rt: HostRuntime) {
    let mut input = [0u8; 526];
    let count = read_full(&rt, &mut input);
    let mut text = [0u8; 16384];
    let length = tell::tell(&input[..count], &mut text);
    let _ = rt.stdout().write_all(&text[..length]);
}

// Reads until `input` is full, standard input ends or a read fails, and answers how many bytes were read. Std's reads of more than
// one piece would not do: they read on after an interrupted read, and tell no count without a heap.
fn read_full(rt: &HostRuntime, input: &mut [u8]) -> usize
    ensures { result ≤ length input.new }
{
    let mut stdin = rt.stdin();
    let mut done = 0;
    while done < input.len() {
        match stdin.read(&mut input[done..]) {
            Ok(0) | Err(_) => break,
            Ok(n) => done += n,
        }
    }
    done
}
