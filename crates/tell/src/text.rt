//! A text that grows, in a room of its own: bytes, a number, a line behind what it has. What is added has to fit.
ghost use Rattle.std.specs.Prelude.{◌≡◌, ◌∷◌, ◌++◌, map, ◌+◌, ◌*◌, ◌≤◌, length, take};
ghost use Rattle.tell.specs.Lines as lines;

use arrayvec::ArrayVec;

// As long as the text that is lent to `tell`.
// How much room is asked differs from line to line, so it stands in each contract; no one fact would say it.
pub(crate) type Text = ArrayVec<u8, 16384>;

fn add(text: &mut Text, bytes: &[u8])
    requires { length text.old.items + length bytes.now ≤ 16384 }
    ensures { text.new.items ≡ text.old.items ++ bytes.now }
{
    text.try_extend_from_slice(bytes).unwrap();
}

// A space and a number.
fn add_number(text: &mut Text, number: u64)
    requires { length text.old.items + 21 ≤ 16384 }
    ensures { text.new.items ≡ text.old.items ++ (32 ∷ lines.decimal number) }
{
    text.push(b' ');
    add(text, itoa::Buffer::new().format(number).as_bytes());
}

// A mark, numbers, each behind a space, and what the line ends with.
#[tactic(auto, using(crate::proofs::Decimals::spellings))]
pub(crate) fn add_line(text: &mut Text, mark: [u8; 3], numbers: &[u64], ending: &[u8])
    requires { length text.old.items + (3 + (21 * length numbers.now + length ending.now)) ≤ 16384 }
    ensures { text.new.items ≡ text.old.items ++ (mark ++ (lines.fields (map lines.decimal numbers.now) ++ ending.now)) }
{
    add(text, &mark);
    for number in numbers {
        add_number(text, *number);
    }
    add(text, ending);
}
