//! The four kinds of line, each added to a text.
//! By bytes and no `write!`: that promises its bytes only where it answers Ok, and `tell` promises every byte.
ghost use Rattle.std.specs.Prelude.{◌≡◌, ◌++◌, ◌∷◌, [], ◌+◌, ◌<◌, ◌≤◌};
ghost use lib.ListN.{length};
ghost use Rattle.refusal.specs.Number.{number_of};
ghost use Rattle.join.specs.Join as joining;
ghost use Rattle.tell.specs.Lines as lines;

use crate::text::{Text, add_line};
use column::Column;
use record::{CHECK_MARK, CheckHead, FRAGMENT_MARK};
use refusal::{Counts, Refusal};

const JOIN_MARK: [u8; 3] = *b"DEC";

const REFUSAL_MARK: [u8; 3] = *b"REF";

const END: [u8; 1] = *b"\n";

#[tactic(auto, unfolding(crate::specs::Lines::refusal_line, crate::specs::Lines::line))]
pub(crate) fn add_refusal(text: &mut Text, refusal: Refusal)
    requires { length text.old.items + 25 ≤ 16384 }
    ensures { text.new.items ≡ text.old.items ++ lines.refusal_line (number_of refusal) }
{
    add_line(text, REFUSAL_MARK, &[u64::from(refusal.number())], &END);
}

#[tactic(auto, unfolding(crate::specs::Lines::check_line, crate::specs::Lines::line))]
pub(crate) fn add_check(text: &mut Text, head: CheckHead)
    requires { length text.old.items + 109 ≤ 16384 }
    ensures { text.new.items ≡ text.old.items ++ lines.check_line head.version head.number head.length head.m head.n }
{
    let numbers = [
        u64::from(head.version),
        head.number,
        u64::from(head.length),
        u64::from(head.m),
        u64::from(head.n),
    ];
    add_line(text, CHECK_MARK, &numbers, &END);
}

#[tactic(auto, unfolding(crate::specs::Lines::fragment_line, crate::specs::Lines::line, crate::specs::Lines::fields))]
pub(crate) fn add_fragment(text: &mut Text, index: u8, size: u32, print: Column)
    requires { length text.old.items + 53 ≤ 16384 }
    ensures { text.new.items ≡ text.old.items ++ lines.fragment_line index size print }
{
    let numbers = [u64::from(index), u64::from(size)];
    add_line(text, FRAGMENT_MARK, &numbers, &in_hexadecimal(print));
}

#[tactic(auto, unfolding(crate::specs::Lines::join_line, crate::specs::Lines::line))]
pub(crate) fn add_join(text: &mut Text, joined: Result<Counts, Refusal>, length: usize)
    requires { lib.ListN.length text.old.items + 67 ≤ 16384 }
    ensures { let j = joining.numbers_of joined in text.new.items ≡ text.old.items ++ lines.join_line j.number j.read length }
{
    let (number, read) = number_and_read(joined);
    let numbers = [u64::from(number), read, length as u64];
    add_line(text, JOIN_MARK, &numbers, &END);
}

// A join's number, and how many records it read.
fn number_and_read(joined: Result<Counts, Refusal>) -> (u32, u64)
    ensures { let j = joining.numbers_of joined in result ≡ (j.number, j.read) }
{
    match joined {
        Ok(counts) => (0, counts.read),
        Err(refusal) => (refusal.number(), refusal.values().0),
    }
}

// A space, the six digits of a column, and the line's end.
#[tactic(auto, unfolding(crate::specs::Lines::hex))]
fn in_hexadecimal(u: Column) -> [u8; 8]
    ensures { result ≡ (32 ∷ lines.hex u) ++ (10 ∷ []) }
{
    [
        b' ',
        digit(u.a / 16),
        digit(u.a % 16),
        digit(u.b / 16),
        digit(u.b % 16),
        digit(u.c / 16),
        digit(u.c % 16),
        b'\n',
    ]
}

#[tactic(auto, unfolding(crate::specs::Lines::hex_digit))]
fn digit(d: u8) -> u8
    requires { d < 16 }
    ensures { result ≡ lines.hex_digit d }
{
    if d < 10 { b'0' + d } else { b'A' - 10 + d }
}
