// The contents of a file put into its blocks.
ghost use Rattle.std.specs.Prelude.{◌≡◌, ℕ, ◌<◌, ◌≤◌, length, slice_index};
ghost use Rattle.store.specs.Lives.{Leads};
ghost use Rattle.layout.specs.Inodes.{blocks_for};
ghost use Rattle.allotment.specs.Volumes.{laid};

use store::interface::{BLOCK_SIZE, Store};
use store::liveness::LiveMut;
use store::padding::padded;

// The longest file: eight blocks.
pub const MAX_FILE: usize = 4096;

// The blocks that a file of that size takes.
pub fn blocks_for(size: usize) -> usize
    requires { size ≤ 4096 }
    ensures { result ≡ blocks_for size }
{
    size.div_ceil(BLOCK_SIZE)
}

// Puts the contents into the blocks of these numbers, one after the other.
pub fn put_contents<S: Store>(live: &mut LiveMut<'_, S>, addresses: &[u16; 8], contents: &[u8])
    requires few { length contents.now ≤ 4096 }
    requires there { (j : ℕ) → j < blocks_for (length contents.now) → slice_index addresses.now j < length (S.Store.blocks live.old.store.now) }
    ensures { Leads S.Store.blocks S.Store.moved (laid (S.Store.blocks live.old.store.now) addresses.now contents.now (blocks_for (length contents.now))) live.old.store live.new.store }
{
    for (bytes, number) in contents.chunks(BLOCK_SIZE).zip(addresses.iter()) {
        live.put(*number as usize, &padded(bytes));
    }
}
