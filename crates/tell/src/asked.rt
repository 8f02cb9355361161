//! What an input asks for, where it is neither too short nor too long.
ghost use Rattle.std.specs.Prelude.{◌≤◌, length};

// A cut of a block; `tell` takes at most 512 bytes.
#[derive(Clone, Copy)]
pub(crate) struct Asked<'a> {
    pub(crate) m: u8,
    pub(crate) n: u8,
    pub(crate) seed: u32,
    pub(crate) number: u64,
    pub(crate) block: &'a [u8],
    ghost short: { length block.now ≤ 512 },
}
