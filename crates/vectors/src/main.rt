//! Runs SHA-256 on the cases of three files and prints, for each, how many of its cases agree: NIST's short and long
//! messages as they are published, and the lengths around the padding's edges. Nothing here is trusted by a proof.
#![tactic(auto)]

mod text;

ghost use Rattle.std.specs.Prelude.{◌≤◌, length};

use std::fs::File;
use std::io::Read;
use std::{fs, io};
use text::{number, unhex};

// The length of the case that is being read, and how many cases were read and agreed.
#[derive(Clone, Copy, Default)]
struct Tally {
    length: usize,
    agreed: u64,
    cases: u64,
}

fn main(rt: HostRuntime) -> io::Result<()> {
    run(&rt, "short", "SHA256ShortMsg.rsp")?;
    run(&rt, "long", "SHA256LongMsg.rsp")?;
    run(&rt, "edges", "edges.rsp")
}

fn run(rt: &HostRuntime, name: &str, path: &str) -> io::Result<()> {
    let mut opened = match fs::open(rt, path) {
        Ok(opened) => opened,
        Err(error) => {
            return eprintln!(rt; "{path}: {error}");
        }
    };
    let mut file = [0; 500000];
    let count = read_full(&mut opened, &mut file);
    let tally = read_cases(&file[..count]);
    println!(rt; "{name} {} of {}", tally.agreed, tally.cases)
}

// Reads until `out` is full, the file ends or a read fails, and answers how many bytes were read. Std's reads of more than one piece
// would not do: they read on after an interrupted read. Its like in `ball` is of another program: a library of these lines is no plainer.
fn read_full(file: &mut File, out: &mut [u8]) -> usize
    ensures { result ≤ length out.new }
{
    let mut done = 0;
    while done < out.len() {
        match file.read(&mut out[done..]) {
            Ok(0) | Err(_) => break,
            Ok(count) => done += count,
        }
    }
    done
}

fn read_cases(file: &[u8]) -> Tally {
    let mut message = [0; 65538];
    let mut tally = Tally::default();
    let lines = file.split(|byte| *byte == b'\n');
    for line in lines.filter(|line| !line.is_empty()) {
        read_line(line, &mut message, &mut tally);
    }
    tally
}

// One line of a case: its length in bits, its message, or its digest, which ends it. A message that there is no room for is passed over.
fn read_line(line: &[u8], message: &mut [u8], tally: &mut Tally) {
    match line {
        [b'L', b'e', b'n', b' ', b'=', b' ', bits @ ..] => {
            tally.length = number(bits) / 8;
            count_up(message);
        }
        [b'M', b's', b'g', b' ', b'=', b' ', digits @ ..] => {
            if let Some(message) = message.get_mut(..tally.length) {
                unhex(digits, message);
            }
        }
        [b'M', b'D', b' ', b'=', b' ', digits @ ..] => {
            if let Some(message) = message.get_mut(..tally.length) {
                end(digits, message, tally);
            }
        }
        _ => {}
    }
}

// Where a case gives no message, its bytes are i mod 251, for i from 0 up to its length.
fn count_up(message: &mut [u8]) {
    for (i, byte) in message.iter_mut().enumerate() {
        *byte = (i % 251) as u8;
    }
}

// A case ends: it is counted, and it agrees where the message has the digest that stands in the line.
fn end(digits: &[u8], message: &[u8], tally: &mut Tally) {
    let mut wanted = [0; 32];
    unhex(digits, &mut wanted);
    if sha256::sha256(message) == Ok(wanted) {
        tally.agreed = tally.agreed.wrapping_add(1);
    }
    tally.cases = tally.cases.wrapping_add(1);
    tally.length = 0;
}
