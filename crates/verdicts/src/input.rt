//! What a check is handed, and what a case changes in it.
use arrayvec::ArrayVec;

// Room for the longest record that is tried.
type Record = ArrayVec<u8, 2108>;

#[derive(Drop)]
pub(crate) struct Input {
    pub(crate) wanted: u64,
    pub(crate) check: Record,
    pub(crate) fragment: Record,
}

#[derive(Clone, Copy)]
pub(crate) enum Change<'a> {
    // Another wanted number.
    Wanted(u64),
    // Other bytes from a place of the check record on, where they fit.
    Check(usize, &'a [u8]),
    // A check record of so many bytes, zero bytes beyond its own.
    CheckLength(usize),
    // The same of the fragment record.
    Fragment(usize, &'a [u8]),
    FragmentLength(usize),
}

impl Input {
    // Two records of block 7, which is wanted.
    pub(crate) fn new(check: &[u8], fragment: &[u8]) -> Input {
        Input {
            wanted: 7,
            check: Record::try_from(check).unwrap_or_default(),
            fragment: Record::try_from(fragment).unwrap_or_default(),
        }
    }

    pub(crate) fn change(&mut self, change: Change<'_>) {
        match change {
            Change::Wanted(number) => self.wanted = number,
            Change::Check(at, bytes) => put(&mut self.check, at, bytes),
            Change::CheckLength(length) => resize(&mut self.check, length),
            Change::Fragment(at, bytes) => put(&mut self.fragment, at, bytes),
            Change::FragmentLength(length) => resize(&mut self.fragment, length),
        }
    }
}

fn put(record: &mut Record, at: usize, bytes: &[u8]) {
    if let Some(rest) = record.as_mut_slice().get_mut(at..) {
        record::put(rest, bytes);
    }
}

fn resize(record: &mut Record, length: usize) {
    record.truncate(length);
    for _ in record.len()..length {
        let _ = record.try_push(0);
    }
}
