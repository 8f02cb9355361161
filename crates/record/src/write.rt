//! The records' heads, written at the start of a buffer. A buffer that is too short holds what it held.
ghost use Rattle.std.specs.Prelude.{◌≡◌, ◌++◌};
ghost use Rattle.record.specs.Layout.{big};
ghost use Rattle.record.specs.Records as records;
ghost use Rattle.record.specs.Put as buffer;

use crate::places::{CHECK_MARK, FRAGMENT_MARK, NUMBER_AT, VERSION_AT};
use crate::{CheckHead, FragmentHead};

/// Copies the bytes to the start of `out`, where they fit.
/// Byte by byte: with std's copy of a slice the archive would ask whoever links it for a `memmove`, which a head has not.
pub fn put(out: &mut [u8], bytes: &[u8])
    ensures { out.new ≡ buffer.put bytes.now out.old }
{
    if out.len() < bytes.len() {
        return;
    }
    for k in 0..bytes.len() {
        out[k] = bytes[k];
    }
}

// What every record starts with: mark, version, block number.
#[tactic(auto, using(crate::proofs::Bytes::two_digits, crate::proofs::Bytes::eight_digits))]
fn front(mark: [u8; 3], version: u16, number: u64) -> [u8; 13]
    ensures { result ≡ mark ++ (big 2 version ++ big 8 number) }
{
    let mut bytes = [0; 13];
    bytes[NUMBER_AT..].copy_from_slice(&number.to_be_bytes());
    bytes[VERSION_AT..NUMBER_AT].copy_from_slice(&version.to_be_bytes());
    bytes[..VERSION_AT].copy_from_slice(&mark);
    bytes
}

// The 22 bytes before the hashes: L at 13, m and n at 17, the seed column at 19.
#[tactic(auto, unfolding(crate::specs::Records::check_head), using(std::proofs::lemmas::Grind::common_steps, crate::proofs::Bytes::four_digits))]
fn check_head(head: CheckHead) -> [u8; 22]
    ensures { result ≡ records.check_head head.version head.number head.length head.m head.n head.seed }
{
    let mut bytes = [0; 22];
    bytes[19..].copy_from_slice(&head.seed.to_bytes());
    bytes[17..19].copy_from_slice(&[head.m, head.n]);
    bytes[13..17].copy_from_slice(&head.length.to_be_bytes());
    bytes[..13].copy_from_slice(&front(CHECK_MARK, head.version, head.number));
    bytes
}

// The 18 bytes before the body: the index at 13, F at 14.
#[tactic(auto, unfolding(crate::specs::Records::fragment_head), using(std::proofs::lemmas::Grind::common_steps, crate::proofs::Bytes::four_digits))]
fn fragment_head(head: FragmentHead) -> [u8; 18]
    ensures { result ≡ records.fragment_head head.version head.number head.index head.size }
{
    let mut bytes = [0; 18];
    bytes[14..].copy_from_slice(&head.size.to_be_bytes());
    bytes[13] = head.index;
    bytes[..13].copy_from_slice(&front(FRAGMENT_MARK, head.version, head.number));
    bytes
}

pub fn write_check_head(out: &mut [u8], head: CheckHead)
    ensures { out.new ≡ buffer.put (records.check_head head.version head.number head.length head.m head.n head.seed) out.old }
{
    put(out, &check_head(head));
}

pub fn write_fragment_head(out: &mut [u8], head: FragmentHead)
    ensures { out.new ≡ buffer.put (records.fragment_head head.version head.number head.index head.size) out.old }
{
    put(out, &fragment_head(head));
}
