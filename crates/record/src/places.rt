//! The versions, and where the parts of the two records stand. What depends on the version goes through `head`; every other place counts
//! from there.
#![tactic(auto, unfolding(crate::specs::Layout::head))]

ghost use Rattle.std.specs.Prelude.{◌≡◌, ◌+◌, ◌*◌};
ghost use Rattle.record.specs.Layout as layout;

/// The version that new records have.
pub const WRITTEN_VERSION: u16 = 1;

/// In every version.
pub const CHECK_MARK: [u8; 3] = *b"LCK";

pub const FRAGMENT_MARK: [u8; 3] = *b"LFR";

pub(crate) const VERSION_AT: usize = 3;

pub(crate) const NUMBER_AT: usize = 5;

// In a check record, behind the head and L: m, n, the seed column, the hashes.
pub(crate) const M_BEHIND: usize = 4;

pub(crate) const N_BEHIND: usize = 5;

pub(crate) const SEED_BEHIND: usize = 6;

const HASHES_BEHIND: usize = 9;

// In a fragment record, behind the head and the index: F, the body.
pub(crate) const SIZE_BEHIND: usize = 1;

const BODY_BEHIND: usize = 5;

const HASH_BYTES: usize = 32;

const PRINT_BYTES: usize = 3;

// The versions that are read. A u16 and no enum: the public places below answer for every u16, and an enum of the one known is no plainer.
pub(crate) fn known(version: u16) -> bool
    ensures { result ≡ layout.known version }
{
    version == 1
}

// How many bytes stand before the fields that follow the block number.
pub(crate) fn head(version: u16) -> usize
    ensures { result ≡ layout.head version }
{
    13
}

pub(crate) fn hashes_place(version: u16) -> usize
    ensures { result ≡ layout.hashes_place version }
{
    head(version) + HASHES_BEHIND
}

/// Where the hash of body `index` starts.
pub fn hash_place(version: u16, index: u8) -> usize
    ensures { result ≡ layout.hashes_place version + 32 * index }
{
    hashes_place(version) + HASH_BYTES * usize::from(index)
}

/// Where the fingerprints start: behind the last of n hashes.
pub fn prints_place(version: u16, n: u8) -> usize
    ensures { result ≡ layout.prints_place version n }
{
    hash_place(version, n)
}

pub fn check_length(version: u16, m: u8, n: u8) -> usize
    ensures { result ≡ layout.check_length version m n }
{
    prints_place(version, n) + PRINT_BYTES * usize::from(m)
}

pub fn body_place(version: u16) -> usize
    ensures { result ≡ layout.body_place version }
{
    head(version) + BODY_BEHIND
}

pub fn record_length(version: u16, size: u32) -> usize
    ensures { result ≡ layout.record_length version size }
{
    body_place(version) + size as usize
}
