//! The two records of document 01, written and read.
//! `CHECK_MARK`, `FRAGMENT_MARK`, `WRITTEN_VERSION`, and by version the places and lengths: `hash_place`, `prints_place`, `check_length`, `body_place`, `record_length`.
//! Reading: `byte_at`, `block_number_at`, `read_check`, `read_fragment`; what lies past the end reads as zero.
//! The tests that refuse by 1, 5, 6 and 8: `counts_fit`, `check_marked`, `check_shaped`, `fragment_shaped`.
//! Writing: `put`, `write_check_head`, `write_fragment_head`; a buffer that is too short holds what it held.
//! No function asks anything of its caller.
#![tactic(auto)]

mod places;
mod read;
mod shape;
pub mod stated;
mod write;

use column::Column;
pub use places::{
    CHECK_MARK, FRAGMENT_MARK, WRITTEN_VERSION, body_place, check_length, hash_place, prints_place,
    record_length,
};
pub use read::{block_number_at, byte_at, read_check, read_fragment};
pub use shape::{check_marked, check_shaped, counts_fit, fragment_shaped};
pub use write::{put, write_check_head, write_fragment_head};

/// What stands before the hashes of a check record.
#[derive(Clone, Copy, Debug, PartialEq, Eq, Hash)]
pub struct CheckHead {
    pub version: u16,
    pub number: u64,
    pub length: u32,
    pub m: u8,
    pub n: u8,
    pub seed: Column,
}

/// What stands before the body of a fragment record.
#[derive(Clone, Copy, Debug, PartialEq, Eq, Hash)]
pub struct FragmentHead {
    pub version: u16,
    pub number: u64,
    pub index: u8,
    pub size: u32,
}
