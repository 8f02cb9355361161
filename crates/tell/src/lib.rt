//! What the program prints: `tell`, for every input. It asks nothing of its caller.
#![tactic(auto)]

mod asked;
mod cutting;
mod lines;
mod records;
mod text;

ghost use Rattle.std.specs.Prelude.{◌≡◌, ◌++◌, [], ◌+◌, ◌*◌, ◌≤◌, length, drop};
ghost use Rattle.tell.specs.Told as told;

use asked::Asked;
use cutting::cut_and_tell;
use lines::add_refusal;
use refusal::Refusal;
use text::Text;

// What stands before the block: m, n, the seed column, the block number.
const HEAD: usize = 13;

// The block number, behind m, n and the seed column.
const NUMBER_AT: u8 = 5;

const LONGEST: usize = 512;

/// Puts the text at the start, where there is room for the longest, and answers how many bytes it has.
/// A lent buffer and its length: this promise, of the buffer's final bytes, is named in docs/PROMISES.md and may not change.
pub fn tell(input: &[u8], text: &mut [u8; 16384]) -> usize
    ensures value { result ≡ length (told.printed input.now) }
    ensures text_after { text.new ≡ told.printed input.now ++ drop result text.old }
{
    let mut grown = Text::new();
    print(&mut grown, input);
    let length = grown.len();
    text[..length].copy_from_slice(grown.as_slice());
    length
}

// Into an empty text, as `cut_and_tell`, `cut_within` and `add_all`. A text handed back, which would ask nothing, was tried: where the ways
// of a match meet again, its proof did not close.
#[tactic(auto, unfolding(crate::specs::Told::printed), using(crate::proofs::Choice::printing))]
fn print(text: &mut Text, input: &[u8])
    requires { text.old.items ≡ [] }
    ensures { text.new.items ≡ told.printed input.now }
{
    if input.len() < HEAD {
        return add_refusal(text, Refusal::WrongLength);
    }
    if HEAD + LONGEST < input.len() {
        return add_refusal(text, Refusal::TooLong);
    }
    let asked = Asked {
        m: input[0],
        n: input[1],
        seed: u32::from_le_bytes([input[2], input[3], input[4], 0]),
        number: record::block_number_at(input, NUMBER_AT),
        block: &input[HEAD..],
    };
    cut_and_tell(text, asked);
}
