//! What is told of a cut: its check record, its fragments, and a join from the last m of them.
ghost use Rattle.std.specs.Prelude.{◌≡◌, ◌++◌, [], ◌+◌, ◌*◌, ◌%◌, ◌≤◌};
ghost use lib.ListN.{length};
ghost use Rattle.code.specs.Cutting as cutting;
ghost use Rattle.record.specs.Layout as layout;
ghost use Rattle.tell.specs.Parts as parts;

use crate::asked::Asked;
use crate::lines::{add_check, add_fragment, add_join};
use crate::text::Text;
use column::Column;

// A line for each of n records.
fn add_fragments(text: &mut Text, n: u8, size: u32, seed: u32, fragments: &[u8])
    requires { length text.old.items + 53 * n ≤ 16384 }
    ensures { text.new.items ≡ text.old.items ++ parts.fragment_lines n size seed fragments.now }
{
    let y = Column::from_seed(seed);
    for index in 0..n {
        let body = cut::body_among(size, fragments, index);
        add_fragment(text, index, size, fingerprint::fingerprint_at(y, body));
    }
}

// The line of a join of these records.
fn add_answer(text: &mut Text, number: u64, length: usize, check: &[u8], records: &[u8])
    requires { (lib.ListN.length text.old.items + 67 ≤ 16384) × (length ≤ 512) }
    ensures { text.new.items ≡ text.old.items ++ parts.answer_line number length check.now records.now }
{
    let mut out = [0u8; 512];
    let joined = join::join(number, check, records, &mut out[..length]);
    add_join(text, joined, length);
}

// All lines.
pub(crate) fn add_all(text: &mut Text, asked: Asked<'_>, check: &[u8], fragments: &[u8])
    requires empty { text.old.items ≡ [] }
    requires m_le_n { asked.m ≤ asked.n }
    requires fragments_value { length fragments.now ≡ asked.n * layout.record_length layout.written_version (cutting.body_length (length asked.block.now) asked.m) }
    ensures { let a = asked.entry in text.new.items ≡ parts.shown a.m a.n a.seed a.number (length a.block.now) check.now fragments.now }
{
    let length = asked.block.len();
    let size = code::body_length(length as u32, asked.m) as u32;
    let from = usize::from(asked.n - asked.m)
        * record::record_length(record::WRITTEN_VERSION, size);
    add_check(text, record::read_check(check));
    add_fragments(text, asked.n, size, asked.seed, fragments);
    add_answer(text, asked.number, length, check, &fragments[from..]);
}
