//! The records' fields, read. What lies past the end of a record reads as zero.
ghost use Rattle.std.specs.Prelude.{◌≡◌, ◌+◌, ◌<◌, get_or, map};
ghost use Rattle.std.specs.List.{range_with_len};
ghost use Rattle.record.specs.Heads as heads;
ghost use Rattle.record.specs.Layout as layout;

use crate::places::{M_BEHIND, N_BEHIND, NUMBER_AT, SEED_BEHIND, SIZE_BEHIND, VERSION_AT, head};
use crate::{CheckHead, FragmentHead};
use column::Column;

/// Zero past the end.
pub fn byte_at(s: &[u8], at: usize) -> u8
    ensures { result ≡ get_or s.now at 0 }
{
    s.get(at).copied().unwrap_or(0)
}

/// The block number whose eight bytes stand from `at` on.
#[tactic(auto, using(crate::proofs::Bytes::eight_bytes))]
pub fn block_number_at(s: &[u8], at: u8) -> u64
    ensures { result ≡ layout.number_at 8 at s.now }
{
    u64::from_be_bytes(bytes_at(s, usize::from(at)))
}

// The N bytes from `at` on.
pub(crate) fn bytes_at<const N: usize>(s: &[u8], at: usize) -> [u8; N]
    requires { at + N < 65536 }
    ensures { result ≡ map (λ k. get_or s.now (at + k) 0) (range_with_len 0 N) }
{
    let mut bytes = [0; N];
    for (k, byte) in bytes.iter_mut().enumerate() {
        *byte = byte_at(s, at + k);
    }
    bytes
}

#[tactic(auto, unfolding(crate::specs::Heads::version_of), using(crate::proofs::Bytes::two_bytes))]
pub(crate) fn version_of(s: &[u8]) -> u16
    ensures { result ≡ heads.version_of s.now }
{
    u16::from_be_bytes(bytes_at(s, VERSION_AT))
}

// Functions and no `From`: `CheckHead::from(check)` would be the same call under a name that does not say what is read.
#[tactic(auto, unfolding(crate::specs::Heads::check_head_of, crate::specs::Layout::head, crate::specs::Layout::column_at), using(crate::proofs::Bytes::four_bytes, crate::proofs::Bytes::eight_bytes))]
pub fn read_check(check: &[u8]) -> CheckHead
    ensures { result ≡ heads.check_head_of check.now }
{
    let version = version_of(check);
    let at = head(version);
    CheckHead {
        version,
        number: u64::from_be_bytes(bytes_at(check, NUMBER_AT)),
        length: u32::from_be_bytes(bytes_at(check, at)),
        m: byte_at(check, at + M_BEHIND),
        n: byte_at(check, at + N_BEHIND),
        seed: Column::from(bytes_at(check, at + SEED_BEHIND)),
    }
}

#[tactic(auto, unfolding(crate::specs::Heads::fragment_head_of, crate::specs::Layout::head), using(crate::proofs::Bytes::four_bytes, crate::proofs::Bytes::eight_bytes))]
pub fn read_fragment(fragment: &[u8]) -> FragmentHead
    ensures { result ≡ heads.fragment_head_of fragment.now }
{
    let version = version_of(fragment);
    let at = head(version);
    FragmentHead {
        version,
        number: u64::from_be_bytes(bytes_at(fragment, NUMBER_AT)),
        index: byte_at(fragment, at),
        size: u32::from_be_bytes(bytes_at(fragment, at + SIZE_BEHIND)),
    }
}
