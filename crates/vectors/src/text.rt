//! Reading a line of a file of cases. What is read is compared and counted by the caller, so the contracts say only
//! what keeps it within the text.
ghost use Rattle.std.specs.Prelude.{◌<◌};

/// The decimal number that text begins with, or the most that fits, with no digit read past the one that no longer fits.
pub fn number(text: &[u8]) -> usize {
    text.iter()
        .map_while(|byte| char::from(*byte).to_digit(10))
        .try_fold(0, |n: usize, digit| {
            n.checked_mul(10)?.checked_add(digit as usize)
        })
        .unwrap_or(usize::MAX)
}

/// The bytes that the hexadecimal digits at the start of text spell, as many as fill out.
pub fn unhex(text: &[u8], out: &mut [u8]) {
    let (pairs, _) = text.as_chunks::<2>();
    for (byte, [high, low]) in out.iter_mut().zip(pairs) {
        *byte = hexadecimal(*high) * 16 + hexadecimal(*low);
    }
}

// The value of a hexadecimal digit in lower case, and 0 of any other byte: std's `to_digit` takes upper case too, which these files
// do not have and this program does not read.
fn hexadecimal(digit: u8) -> u8
    ensures { result < 16 }
{
    match digit {
        b'0'..=b'9' => digit - b'0',
        b'a'..=b'f' => digit - b'a' + 10,
        _ => 0,
    }
}
