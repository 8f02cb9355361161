//! The bounds of document 01, each once: constants only. `specs/Limits` has the same numbers for contracts.
#![tactic(auto)]

pub const MOST_FRAGMENTS: u32 = 64;

pub const LONGEST_BLOCK: usize = 65536;

pub const LONGEST_BODY: usize = 65538;

pub const LARGEST_SEED: u32 = 16777215;
