//! The n fragment records of a block, end to end.
ghost use Rattle.std.specs.Prelude.{◌≡◌, map, ◌*◌, ◌≤◌, length};
ghost use Rattle.limits.specs.Limits.{longest_block};
ghost use Rattle.algebra.specs.Several.{listed, end_to_end};
ghost use Rattle.field.specs.Byte.{bytes};
ghost use Rattle.code.specs.Cutting as cutting;
ghost use Rattle.code.specs.Weights as weights;
ghost use Rattle.record.specs.Layout as layout;
ghost use Rattle.record.specs.Records as records;
ghost use Rattle.cut.specs.Cut as cut;

use crate::bodies::Bodies;
use record::{FragmentHead, WRITTEN_VERSION};

// Writes the records of all n bodies.
pub(crate) fn write_fragments(m: u8, n: u8, number: u64, block: &[u8], fragments: &mut [u8])
    requires le_m { (1 ≤ m) × (m ≤ n) × (length block.now ≤ longest_block) }
    requires fragments_len { length fragments.old ≡ n * layout.record_length layout.written_version (cutting.body_length (length block.now) m) }
    ensures { fragments.new ≡ cut.fragments m n number block.now }
{
    let points = code::points();
    let mut room = [0u8; 255];
    let count = usize::from(m);
    code::each_spread(&points[..count], &mut room[..count]);
    let size = code::body_length(block.len() as u32, m) as u32;
    let bodies = Bodies {
        m,
        size,
        block,
        points: &points[..count],
        spreads: &room[..count],
    };
    write_each(n, number, &bodies, fragments);
}

// Writes one record after the other.
#[tactic(auto, using(crate::proofs::Filling::filled_none, crate::proofs::Filling::filled_more, crate::proofs::Records::one_record))]
fn write_each(n: u8, number: u64, bodies: &Bodies<'_>, fragments: &mut [u8])
    requires { length fragments.old ≡ n * layout.record_length layout.written_version bodies.now.size }
    ensures { fragments.new ≡ end_to_end (listed n (λ i. records.fragment_record layout.written_version number i (cutting.body bodies.now.m bodies.now.size bodies.now.block.now i))) }
{
    let step = record::record_length(WRITTEN_VERSION, bodies.size);
    for index in 0..n {
        let start = usize::from(index) * step;
        write_record(&mut fragments[start..start + step], number, index, bodies);
    }
}

// Writes one record: its head, and its body straight behind it.
fn write_record(out: &mut [u8], number: u64, index: u8, bodies: &Bodies<'_>)
    requires { length out.old ≡ layout.record_length layout.written_version bodies.now.size }
    ensures { out.new ≡ records.fragment_record layout.written_version number index (cutting.body bodies.now.m bodies.now.size bodies.now.block.now index) }
{
    let head = FragmentHead {
        version: WRITTEN_VERSION,
        number,
        index,
        size: bodies.size,
    };
    record::write_fragment_head(out, head);
    let place = record::body_place(WRITTEN_VERSION);
    bodies.write_body(&mut out[place..], index);
}
