//! The tests by which a body is refused by 11 and 12, against a check record that is shaped as it should be.
ghost use Rattle.std.specs.Prelude.{◌≡◌, true, ◌<◌};
ghost use Rattle.record.specs.Heads as heads;
ghost use Rattle.inspect.specs.Check as inspection;

use record::CheckHead;

// 11 is given unless this holds.
#[tactic(auto, using(crate::proofs::Shaped::hash_fits))]
pub(crate) fn hash_agrees(check: &[u8], c: CheckHead, index: u8, body: &[u8]) -> bool
    requires c_value { (c ≡ heads.check_head_of check.now) × (heads.check_shaped check.now ≡ true) }
    requires index_lt_n { index < c.n }
    ensures { result ≡ inspection.hash_agrees check.now index body.now }
{
    let at = record::hash_place(c.version, index);
    check[at..].starts_with(&sha256::digest(body))
}

// 12 is given unless this holds.
#[tactic(auto, unfolding(crate::specs::Check::print_agrees), using(crate::proofs::Shaped::prints_fit))]
pub(crate) fn print_agrees(check: &[u8], c: CheckHead, index: u8, body: &[u8]) -> bool
    requires { (c ≡ heads.check_head_of check.now) × (heads.check_shaped check.now ≡ true) }
    ensures { result ≡ inspection.print_agrees check.now index body.now }
{
    let found = fingerprint::fingerprint_at(c.seed, body);
    let at = record::prints_place(c.version, c.n);
    let called = fingerprint::called_for(c.m, index, &check[at..]);
    found == called
}
