//! What C and Rust link, as `include/ruwekiha.h` declares it; `abi_c` exports each function to C by its name. Each gives the number of
//! document 01 and asks nothing of its caller. To C a `&[u8]` is a pointer and a length; further values go through pointers that are
//! always written, 0 where the document gives none. On a refusal each lent buffer holds what it held. The header's `record` is
//! `fragment` here, since contracts have another use for that word.
#![tactic(auto)]

ghost use Rattle.std.specs.Prelude.{◌≡◌};
ghost use lib.ListN.{length};
ghost use Rattle.sha256.specs.Hash.{answered};
ghost use Rattle.record.specs.Layout.{column_bytes};
ghost use Rattle.fingerprint.specs.Answer.{fingerprinted};
ghost use Rattle.inspect.specs.Answer.{reason_answer};
ghost use Rattle.inspect.specs.Check.{checked, opened, opened_place};
ghost use Rattle.cut.specs.Cut as cutting;
ghost use Rattle.cut.specs.Standard as standard;
ghost use Rattle.join.specs.Join as joining;
ghost use Rattle.abi.specs.Abi.{numbered};

use inspect::{Reason, Verdict};
use refusal::Refusal;

pub fn rwk_cut(
    m: u32,
    n: u32,
    seed: u32,
    number: u64,
    block: &[u8],
    fragments: &mut [u8],
    check: &mut [u8],
) -> u32
    ensures value { result ≡ cutting.cut_number m n seed block.now fragments.old check.old }
    ensures fragments_after { fragments.new ≡ cutting.held result (cutting.fragments m n number block.now) fragments.old }
    ensures check_after { check.new ≡ cutting.held result (cutting.check m n seed number block.now) check.old }
{
    refusal::number_in(cut::cut(m, n, seed, number, block, fragments, check))
}

pub fn rwk_cut_standard(
    seed: u32,
    number: u64,
    block: &[u8],
    fragments: &mut [u8],
    check: &mut [u8],
) -> u32
    ensures value { result ≡ cutting.cut_number standard.m standard.n seed block.now fragments.old check.old }
    ensures fragments_after { fragments.new ≡ cutting.held result (cutting.fragments standard.m standard.n number block.now) fragments.old }
    ensures check_after { check.new ≡ cutting.held result (cutting.check standard.m standard.n seed number block.now) check.old }
{
    refusal::number_in(cut::cut_standard(seed, number, block, fragments, check))
}

pub fn rwk_card_size(length: u64, size: &mut u64) -> u32
    ensures value { result ≡ (standard.planned length).number }
    ensures size_after { size.new ≡ (standard.planned length).size }
{
    match cut::card_size(length) {
        Ok(planned) => {
            *size = planned;
            0
        }
        Err(refusal) => {
            *size = 0;
            refusal.number()
        }
    }
}

pub fn rwk_check(wanted: u64, check: &[u8], fragment: &[u8], value: &mut u64) -> u32
    ensures value { result ≡ (checked wanted check.now fragment.now).number }
    ensures value_after { value.new ≡ (checked wanted check.now fragment.now).value }
{
    match inspect::check(wanted, check, fragment) {
        Verdict::Accepted(index) => {
            *value = u64::from(index);
            0
        }
        Verdict::Refused(reason) => {
            let (number, found) = in_numbers(reason);
            *value = found;
            number
        }
    }
}

pub fn rwk_open(
    wanted: u64,
    check: &[u8],
    fragment: &[u8],
    start: &mut u64,
    length: &mut u64,
) -> u32
    ensures value { result ≡ (checked wanted check.now fragment.now).number }
    ensures start_after { start.new ≡ opened_place wanted check.now fragment.now }
    ensures length_after { length.new ≡ lib.ListN.length (opened wanted check.now fragment.now) }
{
    match inspect::check(wanted, check, fragment) {
        Verdict::Accepted(_) => {
            let at = record::body_place(record::read_check(check).version);
            *start = at as u64;
            *length = (fragment.len() - at) as u64;
            0
        }
        Verdict::Refused(reason) => {
            let (number, _) = in_numbers(reason);
            *start = 0;
            *length = 0;
            number
        }
    }
}

pub fn rwk_join(
    wanted: u64,
    check: &[u8],
    records: &[u8],
    out: &mut [u8],
    read: &mut u64,
    indexes: &mut u64,
) -> u32
    ensures value { result ≡ (joining.join_answer wanted check.now records.now out.old).number }
    ensures out_after { out.new ≡ joining.join_output wanted check.now records.now out.old }
    ensures read_after { read.new ≡ (joining.join_answer wanted check.now records.now out.old).read }
    ensures indexes_after { indexes.new ≡ (joining.join_answer wanted check.now records.now out.old).indexes }
{
    match join::join(wanted, check, records, out) {
        Ok(counts) => {
            *read = counts.read;
            *indexes = counts.indexes;
            0
        }
        Err(refusal) => {
            (*read, *indexes) = refusal.values();
            refusal.number()
        }
    }
}

pub fn rwk_sha256(body: &[u8], digest: &mut [u8]) -> u32
    ensures value { result ≡ numbered (answered body.now).number 32 digest.old }
    ensures digest_after { digest.new ≡ cutting.held result (answered body.now).digest digest.old }
{
    match sha256::sha256(body) {
        Ok(result) => give(&result, digest),
        Err(refusal) => refusal.number(),
    }
}

pub fn rwk_fingerprint(seed: u32, body: &[u8], column: &mut [u8]) -> u32
    ensures value { result ≡ numbered (fingerprinted seed body.now).number 3 column.old }
    ensures column_after { column.new ≡ cutting.held result (column_bytes (fingerprinted seed body.now).column) column.old }
{
    match fingerprint::fingerprint(seed, body) {
        Ok(print) => give(&print.to_bytes(), column),
        Err(refusal) => refusal.number(),
    }
}

// Why a check refuses, as the table's number and the value beside it.
fn in_numbers(reason: Reason) -> (u32, u64)
    ensures { let told = reason_answer reason in result ≡ (told.number, told.value) }
{
    let refusal = Refusal::from(reason);
    (refusal.number(), refusal.values().0)
}

// Puts a result into the buffer, unless that has another length.
#[tactic(auto, unfolding(crate::specs::Abi::numbered))]
fn give(res: &[u8], buffer: &mut [u8]) -> u32
    ensures value { result ≡ numbered 0 (length res.now) buffer.old }
    ensures buffer_after { buffer.new ≡ cutting.held result res.now buffer.old }
{
    if buffer.len() != res.len() {
        return Refusal::WrongLength.number();
    }
    buffer.copy_from_slice(res);
    0
}
