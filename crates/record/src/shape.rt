//! The tests by which a cut refuses by 1, and a record is refused by 5, 6 and 8.
ghost use Rattle.std.specs.Prelude.{◌≡◌};
ghost use Rattle.record.specs.Heads as heads;

use crate::places::{
    CHECK_MARK, FRAGMENT_MARK, NUMBER_AT, body_place, check_length, hashes_place, known,
    record_length,
};
use crate::read::{bytes_at, read_check, read_fragment, version_of};

#[tactic(auto, unfolding(crate::specs::Heads::marked))]
fn marked(mark: [u8; 3], s: &[u8]) -> bool
    ensures { result ≡ heads.marked mark s.now }
{
    bytes_at(s, 0) == mark
}

/// 5 is given unless this holds.
#[tactic(auto, unfolding(crate::specs::Heads::check_marked))]
pub fn check_marked(check: &[u8]) -> bool
    ensures { result ≡ heads.check_marked check.now }
{
    NUMBER_AT <= check.len() && marked(CHECK_MARK, check) && known(version_of(check))
}

/// 1 is given unless this holds of a cut's counts, 6 unless it holds of a record's.
#[tactic(auto, unfolding(crate::specs::Heads::counts_fit))]
pub fn counts_fit(m: u32, n: u32) -> bool
    ensures { result ≡ heads.counts_fit m n }
{
    1 <= m && m <= n && n <= limits::MOST_FRAGMENTS
}

/// 6 is given unless this holds.
#[tactic(auto, unfolding(crate::specs::Heads::check_shaped))]
pub fn check_shaped(check: &[u8]) -> bool
    ensures { result ≡ heads.check_shaped check.now }
{
    let head = read_check(check);
    hashes_place(head.version) <= check.len()
        && counts_fit(u32::from(head.m), u32::from(head.n))
        && head.length as usize <= limits::LONGEST_BLOCK
        && check.len() == check_length(head.version, head.m, head.n)
}

/// 8 is given unless this holds, for the version and the F of the check record.
#[tactic(auto, unfolding(crate::specs::Heads::fragment_shaped))]
pub fn fragment_shaped(version: u16, size: usize, fragment: &[u8]) -> bool
    ensures { result ≡ heads.fragment_shaped version size fragment.now }
{
    let head = read_fragment(fragment);
    body_place(version) <= fragment.len()
        && marked(FRAGMENT_MARK, fragment)
        && head.version == version
        && head.size as usize == size
        && fragment.len() == record_length(version, head.size)
}
