//! Fingerprints: of a body at a seed, by Horner's rule with a table for each seed, and the one that a list of fingerprints calls
//! for of a body. No public function asks anything of its caller.
#![tactic(auto)]

pub mod stated;

ghost use Rattle.std.specs.Prelude.{◌≡◌, ℕ, List, Result, ◌+◌, ◌<◌, length, get_or};
ghost use Rattle.refusal.specs.declared.Refusal.{Refusal};
ghost use Rattle.column.specs.declared.Column.{Column as FieldColumn};
ghost use Rattle.algebra.specs.Several.{listed};
ghost use Rattle.field.specs.Byte.{plus};
ghost use Rattle.algebra.specs.Combination.{combined};
ghost use Rattle.column.specs.Column.{column_space};
ghost use Rattle.column.specs.Column as column;
ghost use Rattle.fingerprint.specs.Fingerprint as print;
ghost use Rattle.fingerprint.specs.Horner as horner;
ghost use Rattle.fingerprint.specs.Answer as answer;

use column::Column;
use refusal::Refusal;

/// The fingerprint of a body at a seed number; refused by 2, 3 and 4 as they apply.
pub fn fingerprint(seed: u32, body: &[u8]) -> Result<Column, Refusal>
    ensures { answer.numbers_of result ≡ answer.fingerprinted seed body.now }
{
    if body.len() > limits::LONGEST_BODY {
        return Err(Refusal::TooLong);
    }
    if seed > limits::LARGEST_SEED {
        return Err(Refusal::SeedTooLarge);
    }
    if body.len() % 3 != 0 {
        return Err(Refusal::WrongLength);
    }
    Ok(fingerprint_at(Column::from_seed(seed), body))
}

/// What `fingerprint` promises fixes its answer.
pub fn one_answer()
    ensures { (seed : ℕ) (body : List ℕ) (a b : Result FieldColumn Refusal) → answer.numbers_of a ≡ answer.fingerprinted seed body → answer.numbers_of b ≡ answer.fingerprinted seed body → a ≡ b }
{}

/// The fingerprint of a body of any length at a seed column.
pub fn fingerprint_at(seed: Column, body: &[u8]) -> Column
    ensures { result ≡ print.fingerprint_at seed body.now }
{
    let mut room = [0; 768];
    SeedTable::new(seed, &mut room).fingerprint(body)
}

/// A seed column and the table of its square, for the fingerprints of many bodies at that seed. The table is lent, so that no copy
/// of it is ever made.
#[derive(Clone, Copy)]
pub struct SeedTable<'a> {
    seed: Column,
    entries: &'a [u32; 768],
    ghost small: { (seed.a < 256) × (seed.b < 256) × (seed.c < 256) },
    ghost of_square: { entries.now ≡ horner.table_of (column.times seed seed) },
}

impl<'a> SeedTable<'a> {
    /// The table is put into `room`.
    pub fn new(seed: Column, room: &'a mut [u32; 768]) -> SeedTable<'a>
        ensures { result.seed ≡ seed }
    {
        put_table(room, seed * seed);
        SeedTable {
            seed,
            entries: room,
        }
    }

    /// The fingerprint of a body of any length; a last column that is not whole is filled with zero bytes.
    pub fn fingerprint(&self, body: &[u8]) -> Column
        ensures { result ≡ print.fingerprint_at self.now.seed body.now }
    {
        evaluated(self.entries, self.seed, body)
    }
}

/// For each byte k the multiples by k of y, of x y and of x^2 y.
pub fn table(y: Column) -> [u32; 768]
    ensures { result ≡ horner.table_of y }
{
    let mut out = [0; 768];
    put_table(&mut out, y);
    out
}

// The same into a lent table. The bytes of x y and x^2 y are sums of y's, and so are their rows.
fn put_table(out: &mut [u32; 768], y: Column)
    ensures { out.new ≡ horner.table_of y }
{
    let a = field::row(y.a);
    let b = field::row(y.b);
    let c = field::row(y.c);
    let ac = sums(&a, &c);
    let cb = sums(&c, &b);
    let (one, rest) = out.split_at_mut(256);
    let (two, three) = rest.split_at_mut(256);
    fill(one, &a, &b, &c);
    fill(two, &c, &ac, &b);
    fill(three, &b, &cb, &ac);
}

// The row of the sum of two bytes, from their rows.
#[tactic(auto, using(code::proofs::Walks::listed_all))]
fn sums(a: &[u8; 256], b: &[u8; 256]) -> [u8; 256]
    ensures { result ≡ listed 256 (λ k. plus (get_or a.now k 0) (get_or b.now k 0)) }
{
    let mut out = [0; 256];
    for k in 0..256 {
        out[k] = field::plus(a[k], b[k]);
    }
    out
}

// Puts the columns that three rows hold side by side into 256 places.
#[tactic(auto, using(code::proofs::Walks::listed_all))]
fn fill(out: &mut [u32], a: &[u8; 256], b: &[u8; 256], c: &[u8; 256])
    requires { length out.old ≡ 256 }
    ensures { out.new ≡ listed 256 (λ k. horner.packed (record { a = get_or a.now k 0; b = get_or b.now k 0; c = get_or c.now k 0 })) }
{
    for k in 0..256 {
        out[k] = packed(Column {
            a: a[k],
            b: b[k],
            c: c[k],
        });
    }
}

/// Horner's rule from the last column to the first, with a table of y^2: two values in turn, so that a lookup waits for the one
/// before the last. A last column that is not whole is filled with zero bytes.
pub fn evaluated(table: &[u32; 768], y: Column, body: &[u8]) -> Column
    ensures { result ≡ horner.evaluated table.now y (print.columns_of body.now) }
{
    let (columns, rest) = body.as_chunks::<3>();
    let mut even = last(table, rest);
    let mut odd = 0;
    for j in (0..columns.len()).rev() {
        let next = packed(Column::from(columns[j])) ^ looked_up(table, odd);
        odd = even;
        even = next;
    }
    unpacked(even) + y * unpacked(odd)
}

// The value of what is left of a body, less than a whole column.
fn last(table: &[u32; 768], rest: &[u8]) -> u32
    requires { length rest.now < 3 }
    ensures { horner.unpacked result ≡ (horner.halves table.now (print.columns_of rest.now)).even }
{
    if rest.is_empty() {
        return 0;
    }
    packed(Column::from(rest)) ^ looked_up(table, 0)
}

// Times the table's seed column: three lookups.
fn looked_up(table: &[u32; 768], value: u32) -> u32
    ensures { horner.unpacked result ≡ horner.looked_up table.now (horner.unpacked value) }
{
    let [a, b, c, _] = value.to_le_bytes();
    table[usize::from(a)] ^ table[256 + usize::from(b)] ^ table[512 + usize::from(c)]
}

#[tactic(auto, unfolding(crate::specs::Horner::packed))]
fn packed(u: Column) -> u32
    ensures { result ≡ horner.packed u }
{
    u32::from_le_bytes([u.a, u.b, u.c, 0])
}

#[tactic(auto, unfolding(crate::specs::Horner::unpacked))]
fn unpacked(value: u32) -> Column
    ensures { result ≡ horner.unpacked value }
{
    let [a, b, c, _] = value.to_le_bytes();
    Column { a, b, c }
}

/// The combination of the fingerprints, three bytes each, by body i's own coefficients: below m that is the fingerprint of body i itself.
pub fn called_for(m: u8, i: u8, prints: &[u8]) -> Column
    ensures { result ≡ print.called_for m i (print.columns_of prints.now) }
{
    if i < m {
        return print_at(prints, i);
    }
    let mut room = [0u8; 255];
    let count = usize::from(m);
    code::coefficients(m, i, &mut room[..count]);
    combination(&room[..count], m, prints)
}

// The fingerprints scaled by m coefficients, from the last to the first.
fn combination(coefficients: &[u8], m: u8, prints: &[u8]) -> Column
    requires { length coefficients.now ≡ m }
    ensures { result ≡ combined column_space coefficients.now (print.columns_of prints.now) }
{
    let mut sum = Column::ZERO;
    for j in (0..m).rev() {
        sum = print_at(prints, j) * coefficients[usize::from(j)] + sum;
    }
    sum
}

// Fingerprint j, the zero column where there is none.
#[tactic(auto, using(crate::proofs::Called::print_none))]
fn print_at(prints: &[u8], j: u8) -> Column
    ensures { result ≡ get_or (print.columns_of prints.now) j column.zero }
{
    match prints.get(3 * usize::from(j)..) {
        Some(bytes) => Column::from(bytes),
        None => Column::ZERO,
    }
}
