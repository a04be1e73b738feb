// A new volume in a store.
ghost use Rattle.std.specs.Prelude.{◌≡◌, ◌+◌, ◌≤◌, length};
ghost use Rattle.std.specs.List.{range_with_len};
ghost use Rattle.store.specs.Lives.{Leads};
ghost use Rattle.allotment.specs.Calls.{Served};
ghost use Rattle.allotment.specs.Formats.{can_format, new_super, root_inode, first_inodes, root_entries, formatted, format_call};

use crate::blocks::clear_blocks;
use crate::free::give_back;
use crate::records::{set_entry, set_inode};
use faults::{Fault, Question};
use layout::inode::Inode;
use layout::words::set_word;
use std::array;
use store::interface::{Block, Store};
use store::liveness::{LiveMut, all_live};
use volume::rules::MAX_VOLUME;

// Question 16: at most 100 blocks, and 1 to all but 3 of them for the inode list.
fn can_format(count: usize, isize: usize) -> bool
    ensures { result ≡ can_format count isize }
{
    count <= MAX_VOLUME && 1 <= isize && isize < count && isize + 3 <= count
}

// The numbers of the blocks that a volume may have.
fn block_numbers() -> [u16; MAX_VOLUME]
    ensures { result ≡ range_with_len 0 100 }
{
    array::from_fn(|n| n as u16)
}

// The superblock: the sizes, and every data block behind the first in the free list, the lowest to be taken next.
fn new_superblock(count: usize, isize: usize) -> Block
    requires small { count ≤ 100 }
    requires room { isize + 3 ≤ count }
    ensures { result ≡ new_super count isize }
{
    let mut block = [0; 512];
    set_word(&mut block, 0, isize as u16);
    set_word(&mut block, 2, count as u16);
    set_word(&mut block, 4, 1);
    give_back(&mut block, &block_numbers()[isize + 3..count]);
    block
}

// Inode 1 of a new volume: a directory of two entries, in the first data block.
fn root_inode(isize: usize) -> Inode
    requires { isize ≤ 97 }
    ensures { result ≡ root_inode isize }
{
    let mut addresses = [0; 8];
    addresses[0] = isize as u16 + 2;
    Inode {
        mode: 0xc1ff,
        links: 2,
        size: 32,
        addresses,
        ..Inode::default()
    }
}

// The first block of the inode list: inode 1, and zeros.
fn first_inodes(isize: usize) -> Block
    requires { isize ≤ 97 }
    ensures { result ≡ first_inodes isize }
{
    let mut block = [0; 512];
    set_inode(&mut block, 0, &root_inode(isize));
    block
}

// The first block of the directory: "." and "..", both for inode 1, and zeros.
fn root_entries() -> Block
    ensures { result ≡ root_entries }
{
    let mut block = [0; 512];
    set_entry(&mut block, 0, 1, b".\0\0\0\0\0\0\0\0\0\0\0\0\0");
    set_entry(&mut block, 16, 1, b"..\0\0\0\0\0\0\0\0\0\0\0\0");
    block
}

// Puts each block of a new volume that is not left as it was, once.
fn put_volume<S: Store>(live: &mut LiveMut<'_, S>, isize: usize)
    requires small { length (S.Store.blocks live.old.store.now) ≤ 100 }
    requires some { 1 ≤ isize }
    requires room { isize + 3 ≤ length (S.Store.blocks live.old.store.now) }
    ensures { Leads S.Store.blocks S.Store.moved (formatted (S.Store.blocks live.old.store.now) isize) live.old.store live.new.store }
{
    let count = live.store.count();
    live.put(0, &[0; 512]);
    live.put(1, &new_superblock(count, isize));
    live.put(2, &first_inodes(isize));
    clear_blocks(live, 3, isize + 2);
    live.put(isize + 2, &root_entries());
}

// Makes a new volume with so many blocks of inodes. Data blocks other than the first stay as they were.
pub fn format<S: Store>(store: &mut S, isize: usize) -> Result<(), Fault>
    ensures { Served S.Store.blocks S.Store.marks S.Store.moved (format_call (S.Store.blocks store.old) (S.Store.marks store.old) isize) store.old store.new result }
{
    if !can_format(store.count(), isize) {
        return Err(Fault::from(Question::FormatWithinLimits));
    }
    all_live(store)?;
    put_volume(&mut LiveMut { store }, isize);
    Ok(())
}
