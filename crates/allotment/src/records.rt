// Records replaced, in a block and in a volume: inodes and directory entries.
ghost use Rattle.std.specs.Prelude.{◌≡◌, ◌+◌, ◌/◌, ◌<◌, ◌≤◌, length, slice_index};
ghost use Rattle.store.specs.Lives.{Leads};
ghost use Rattle.layout.specs.Inodes.{inode_block};
ghost use Rattle.allotment.specs.Records.{inode_into, entry_into};
ghost use Rattle.allotment.specs.Volumes.{with_inode, with_entry_number, with_entry};

use layout::entry::ENTRY_SIZE;
use layout::inode::{INODE_SIZE, Inode};
use layout::words::set_word;
use store::interface::{Block, Store};
use store::liveness::LiveMut;

// The directory entries of a block.
const ENTRIES_PER_BLOCK: usize = 32;

// Writes an inode from that byte on.
pub(crate) fn set_inode(block: &mut Block, at: usize, inode: &Inode)
    requires { at + 32 ≤ 512 }
    ensures { block.new ≡ inode_into block.old at inode.now }
{
    block[at..at + INODE_SIZE].copy_from_slice(&inode.encode());
}

// Writes a directory entry from that byte on: the number of its inode, and its name field.
pub(crate) fn set_entry(block: &mut Block, at: usize, inode: u16, name: &[u8; 14])
    requires { at + 16 ≤ 512 }
    ensures { block.new ≡ entry_into block.old at inode name.now }
{
    set_word(block, at, inode);
    block[at + 2..at + ENTRY_SIZE].copy_from_slice(name);
}

// Replaces inode i of a volume.
pub fn put_inode<S: Store>(live: &mut LiveMut<'_, S>, i: u16, inode: &Inode)
    requires { inode_block i < length (S.Store.blocks live.old.store.now) }
    ensures { Leads S.Store.blocks S.Store.moved (with_inode (S.Store.blocks live.old.store.now) i inode.now) live.old.store live.new.store }
{
    let place = i as usize + 31;
    live.change(place / 16, |block| {
        set_inode(block, INODE_SIZE * (place % 16), inode)
    });
}

// Replaces the number in entry e of the directory, and leaves the name.
pub fn put_entry_number<S: Store>(
    live: &mut LiveMut<'_, S>,
    addresses: &[u16; 8],
    e: usize,
    number: u16,
)
    requires few { e < 256 }
    requires within { slice_index addresses.now (e / 32) < length (S.Store.blocks live.old.store.now) }
    ensures { Leads S.Store.blocks S.Store.moved (with_entry_number (S.Store.blocks live.old.store.now) addresses.now e number) live.old.store live.new.store }
{
    let n = addresses[e / ENTRIES_PER_BLOCK] as usize;
    let at = ENTRY_SIZE * (e % ENTRIES_PER_BLOCK);
    live.change(n, |block| set_word(block, at, number));
}

// Replaces entry e of the directory. Alike to the function above it but for the change: a helper that takes that as a closure would save two
// lines, and need a contract and an answer of its own.
pub fn put_entry<S: Store>(
    live: &mut LiveMut<'_, S>,
    addresses: &[u16; 8],
    e: usize,
    number: u16,
    name: &[u8; 14],
)
    requires few { e < 256 }
    requires within { slice_index addresses.now (e / 32) < length (S.Store.blocks live.old.store.now) }
    ensures { Leads S.Store.blocks S.Store.moved (with_entry (S.Store.blocks live.old.store.now) addresses.now e number name.now) live.old.store live.new.store }
{
    let n = addresses[e / ENTRIES_PER_BLOCK] as usize;
    let at = ENTRY_SIZE * (e % ENTRIES_PER_BLOCK);
    live.change(n, |block| set_entry(block, at, number, name));
}
