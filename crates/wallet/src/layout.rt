// The covers laid out over a store, and the keys that stand over them.
ghost use Rattle.std.specs.Prelude.{◌≤◌};

use keys::table::KeyTable;

mod calls;

// Each cover has so many blocks; the key table knows how many covers there are.
#[derive(Drop)]
pub(crate) struct Layout {
    pub(crate) keys: KeyTable,
    pub(crate) blocks: usize,
    ghost short: { blocks ≤ 100 },
}
