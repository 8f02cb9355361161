//! Cutting a block and telling of it: a refusal, or all lines.
ghost use Rattle.std.specs.Prelude.{◌≡◌, [], ◌*◌, ◌≤◌, length};
ghost use Rattle.code.specs.Cutting as cutting;
ghost use Rattle.record.specs.Layout as layout;
ghost use Rattle.tell.specs.Told as told;

use crate::asked::Asked;
use crate::lines::add_refusal;
use crate::records::add_all;
use crate::text::Text;

// With room for every m and n that a byte can name, so that the cut alone refuses them: 255 records of 18 + 513 bytes, and a check
// record of 22 + 32 x 255 + 3 x 255.
#[tactic(auto, unfolding(record::specs::Layout::head), using(crate::proofs::Room::room))]
pub(crate) fn cut_and_tell(text: &mut Text, asked: Asked<'_>)
    requires { text.old.items ≡ [] }
    ensures { let a = asked.entry in text.new.items ≡ told.told a.m a.n a.seed a.number a.block.now }
{
    let size = code::body_length(asked.block.len() as u32, asked.m) as u32;
    let records = usize::from(asked.n) * record::record_length(record::WRITTEN_VERSION, size);
    let summary = record::check_length(record::WRITTEN_VERSION, asked.m, asked.n);
    let mut fragments = [0u8; 135405];
    let mut check = [0u8; 8947];
    cut_within(
        text,
        asked,
        &mut fragments[..records],
        &mut check[..summary],
    );
}

// With two buffers as long as the cut asks.
fn cut_within(text: &mut Text, asked: Asked<'_>, fragments: &mut [u8], check: &mut [u8])
    requires empty { text.old.items ≡ [] }
    requires fragments_len { length fragments.old ≡ asked.n * layout.record_length layout.written_version (cutting.body_length (length asked.block.now) asked.m) }
    requires check_len { length check.old ≡ layout.check_length layout.written_version asked.m asked.n }
    ensures { let a = asked.entry in text.new.items ≡ told.told a.m a.n a.seed a.number a.block.now }
{
    let cut = cut::cut(
        u32::from(asked.m),
        u32::from(asked.n),
        asked.seed,
        asked.number,
        asked.block,
        fragments,
        check,
    );
    match cut {
        Ok(()) => add_all(text, asked, check, fragments),
        Err(refusal) => add_refusal(text, refusal),
    }
}
