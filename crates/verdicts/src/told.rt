//! A line for each case: what was changed, the number, the value, the bytes opened.
use crate::input::{Change, Input};
use crate::records::{CHECK, FRAGMENT, ONE_CHECK, ONE_FRAGMENT};
use inspect::Verdict;
use refusal::Refusal;
use std::io;

// What is changed, in words, and the changes in turn.
pub(crate) type Case<'a> = (&'a str, &'a [Change<'a>]);

// Of the block cut in four.
pub(crate) fn four(rt: &HostRuntime, cases: &[Case<'_>]) -> io::Result<()> {
    all(rt, &CHECK, &FRAGMENT, cases)
}

// Of the block in one body.
pub(crate) fn one(rt: &HostRuntime, cases: &[Case<'_>]) -> io::Result<()> {
    all(rt, &ONE_CHECK, &ONE_FRAGMENT, cases)
}

fn all(rt: &HostRuntime, check: &[u8], fragment: &[u8], cases: &[Case<'_>]) -> io::Result<()> {
    for (what, changes) in cases {
        let mut input = Input::new(check, fragment);
        for change in *changes {
            input.change(*change);
        }
        verdict(rt, what, &input)?;
    }
    Ok(())
}

fn verdict(rt: &HostRuntime, what: &str, input: &Input) -> io::Result<()> {
    let Input {
        wanted,
        check,
        fragment,
    } = input;
    let (number, value) = match inspect::check(*wanted, check, fragment) {
        Verdict::Accepted(index) => (0, u64::from(index)),
        Verdict::Refused(reason) => {
            let refusal = Refusal::from(reason);
            (refusal.number(), refusal.values().0)
        }
    };
    let opened = inspect::open(*wanted, check, fragment).len();
    println!(rt; "{what}: {number} {value} {opened}")
}
