// A standing level: its number, its key, and the covers from which the key reads it.
ghost use Rattle.std.specs.Prelude.{◌≡◌, ◌^◌, ◌<◌, ◌≤◌};
ghost use Rattle.keys.specs.Keys.{product};

mod block_calls;
mod part;

#[derive(Clone, Copy, Drop)]
pub(crate) struct Level {
    pub(crate) number: usize,
    pub(crate) key: u64,
    pub(crate) covers: usize,
    pub(crate) blocks: usize,
    ghost narrow: { covers ≤ 32 },
    ghost short: { blocks ≤ 100 },
    ghost below: { key < 2 ^ covers },
    ghost own: { product key key ≡ 1 },
}
