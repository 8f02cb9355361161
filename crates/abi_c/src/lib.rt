//! The archive that C and Rust link, as `include/ruwekiha.h` declares it: each function of `abi`, with its clauses, under its name.
//! A crate of its own, since C needs an archive, and a crate is a library or an archive and not both (docs/DECISIONS.md, 34).
#![tactic(auto)]

ghost use Rattle.std.specs.Prelude.{◌≡◌};
ghost use lib.ListN.{length};
ghost use Rattle.sha256.specs.Hash.{answered};
ghost use Rattle.record.specs.Layout.{column_bytes};
ghost use Rattle.fingerprint.specs.Answer.{fingerprinted};
ghost use Rattle.inspect.specs.Check.{checked, opened, opened_place};
ghost use Rattle.cut.specs.Cut as cutting;
ghost use Rattle.cut.specs.Standard as standard;
ghost use Rattle.join.specs.Join as joining;
ghost use Rattle.abi.specs.Abi.{numbered};

#[unsafe(no_mangle)]
pub extern "C" fn rwk_cut(
    m: u32,
    n: u32,
    seed: u32,
    number: u64,
    block: &[u8],
    fragments: &mut [u8],
    check: &mut [u8],
) -> u32
    ensures value { result ≡ cutting.cut_number m n seed block.now fragments.old check.old }
    ensures fragments_after { fragments.new ≡ cutting.held result (cutting.fragments m n number block.now) fragments.old }
    ensures check_after { check.new ≡ cutting.held result (cutting.check m n seed number block.now) check.old }
{
    abi::rwk_cut(m, n, seed, number, block, fragments, check)
}

#[unsafe(no_mangle)]
pub extern "C" fn rwk_cut_standard(
    seed: u32,
    number: u64,
    block: &[u8],
    fragments: &mut [u8],
    check: &mut [u8],
) -> u32
    ensures value { result ≡ cutting.cut_number standard.m standard.n seed block.now fragments.old check.old }
    ensures fragments_after { fragments.new ≡ cutting.held result (cutting.fragments standard.m standard.n number block.now) fragments.old }
    ensures check_after { check.new ≡ cutting.held result (cutting.check standard.m standard.n seed number block.now) check.old }
{
    abi::rwk_cut_standard(seed, number, block, fragments, check)
}

#[unsafe(no_mangle)]
pub extern "C" fn rwk_card_size(length: u64, size: &mut u64) -> u32
    ensures value { result ≡ (standard.planned length).number }
    ensures size_after { size.new ≡ (standard.planned length).size }
{
    abi::rwk_card_size(length, size)
}

#[unsafe(no_mangle)]
pub extern "C" fn rwk_check(wanted: u64, check: &[u8], fragment: &[u8], value: &mut u64) -> u32
    ensures value { result ≡ (checked wanted check.now fragment.now).number }
    ensures value_after { value.new ≡ (checked wanted check.now fragment.now).value }
{
    abi::rwk_check(wanted, check, fragment, value)
}

#[unsafe(no_mangle)]
pub extern "C" fn rwk_open(
    wanted: u64,
    check: &[u8],
    fragment: &[u8],
    start: &mut u64,
    length: &mut u64,
) -> u32
    ensures value { result ≡ (checked wanted check.now fragment.now).number }
    ensures start_after { start.new ≡ opened_place wanted check.now fragment.now }
    ensures length_after { length.new ≡ lib.ListN.length (opened wanted check.now fragment.now) }
{
    abi::rwk_open(wanted, check, fragment, start, length)
}

#[unsafe(no_mangle)]
pub extern "C" fn rwk_join(
    wanted: u64,
    check: &[u8],
    records: &[u8],
    out: &mut [u8],
    read: &mut u64,
    indexes: &mut u64,
) -> u32
    ensures value { result ≡ (joining.join_answer wanted check.now records.now out.old).number }
    ensures out_after { out.new ≡ joining.join_output wanted check.now records.now out.old }
    ensures read_after { read.new ≡ (joining.join_answer wanted check.now records.now out.old).read }
    ensures indexes_after { indexes.new ≡ (joining.join_answer wanted check.now records.now out.old).indexes }
{
    abi::rwk_join(wanted, check, records, out, read, indexes)
}

#[unsafe(no_mangle)]
pub extern "C" fn rwk_sha256(body: &[u8], digest: &mut [u8]) -> u32
    ensures value { result ≡ numbered (answered body.now).number 32 digest.old }
    ensures digest_after { digest.new ≡ cutting.held result (answered body.now).digest digest.old }
{
    abi::rwk_sha256(body, digest)
}

#[unsafe(no_mangle)]
pub extern "C" fn rwk_fingerprint(seed: u32, body: &[u8], column: &mut [u8]) -> u32
    ensures value { result ≡ numbered (fingerprinted seed body.now).number 3 column.old }
    ensures column_after { column.new ≡ cutting.held result (column_bytes (fingerprinted seed body.now).column) column.old }
{
    abi::rwk_fingerprint(seed, body, column)
}
