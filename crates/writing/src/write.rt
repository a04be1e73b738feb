// The contents of a file replaced.
ghost use Rattle.std.specs.Prelude.{◌≡◌, ◌+◌, ◌≤◌, true, length};
ghost use Rattle.store.specs.Lives.{Leads};
ghost use Rattle.layout.specs.Inodes.{blocks_for};
ghost use Rattle.layout.specs.Superblocks.{nfree_of};
ghost use Rattle.reading.specs.Found.{FileIn};
ghost use Rattle.allotment.specs.Calls.{Served};
ghost use Rattle.writing.specs.Changes.{IsSoundWith};
ghost use Rattle.writing.specs.Writes.{given_back, super_rewritten, inode_rewritten, written, enough_blocks, write_call};

use allotment::contents::{MAX_FILE, blocks_for, put_contents};
use allotment::free::{give_back, take_blocks};
use allotment::records::put_inode;
use faults::{Fault, Question};
use layout::inode::Inode;
use layout::name::is_lawful;
use layout::superblock::nfree_of;
use reading::file::{File, find_file};
use store::interface::{Block, Store};
use store::liveness::LiveMut;
use volume::loaded::Volume;
use volume::sound::open;

// Whether there are free blocks enough for a file of that size, the file's own included.
fn has_enough_blocks(superblock: &Block, inode: &Inode, size: usize) -> bool
    requires some { 1 ≤ nfree_of superblock.now }
    requires small { inode.now.size ≤ 4096 }
    requires fits { size ≤ 4096 }
    ensures { result ≡ enough_blocks superblock.now inode.now size }
{
    let free = nfree_of(superblock) as usize - 1;
    blocks_for(size) <= free + inode.block_count()
}

// Gives back the blocks of a file, from last to first.
pub(crate) fn give_file_back(superblock: &mut Block, inode: &Inode)
    requires small { inode.now.size ≤ 4096 }
    requires room { nfree_of superblock.old + blocks_for inode.now.size ≤ 100 }
    ensures after { superblock.new ≡ given_back superblock.old inode.now }
    ensures count { nfree_of superblock.new ≡ nfree_of superblock.old + blocks_for inode.now.size }
{
    give_back(superblock, &inode.addresses[..inode.block_count()]);
}

// Gives back the blocks of a file and takes new ones for that size; the inode's size and addresses are replaced, and all else stays.
fn resize(superblock: &mut Block, inode: Inode, size: usize) -> Inode
    requires small { inode.size ≤ 4096 }
    requires fits { size ≤ 4096 }
    requires some { 1 ≤ nfree_of superblock.old }
    requires room { nfree_of superblock.old + blocks_for inode.size ≤ 100 }
    requires enough { enough_blocks superblock.old inode size ≡ true }
    ensures inode { result ≡ inode_rewritten superblock.old inode size }
    ensures after { superblock.new ≡ super_rewritten superblock.old inode size }
{
    give_file_back(superblock, &inode);
    let addresses = take_blocks(superblock, blocks_for(size));
    Inode {
        size: size as u32,
        addresses,
        ..inode
    }
}

// Puts the superblock, the contents and the inode of a rewritten file, each block once. The volume is sound until the first put.
fn rewrite<S: Store>(live: &mut LiveMut<'_, S>, volume: &Volume, file: &File, contents: &[u8])
    requires sound { IsSoundWith (S.Store.blocks live.old.store.now) volume.now }
    requires found { FileIn (S.Store.blocks live.old.store.now) file.now }
    requires fits { length contents.now ≤ 4096 }
    requires enough { enough_blocks volume.now.superblock file.now.inode (length contents.now) ≡ true }
    ensures { Leads S.Store.blocks S.Store.moved (written (S.Store.blocks live.old.store.now) contents.now file.now) live.old.store live.new.store }
{
    let mut superblock = volume.superblock;
    let inode = resize(&mut superblock, file.inode, contents.len());
    live.put(1, &superblock);
    put_contents(live, &inode.addresses, contents);
    put_inode(live, file.number, &inode);
}

// Replaces the whole contents of the file of that name, or nothing.
pub fn write<S: Store>(store: &mut S, name: &[u8], contents: &[u8]) -> Result<(), Fault>
    ensures { Served S.Store.blocks S.Store.marks S.Store.moved (write_call (S.Store.blocks store.old) (S.Store.marks store.old) name.now contents.now) store.old store.new result }
{
    if !is_lawful(name) {
        return Err(Fault::from(Question::NameLawful));
    }
    if contents.len() > MAX_FILE {
        return Err(Fault::from(Question::LengthWithinLimit));
    }
    let volume = open(store)?;
    let file = find_file(&volume, name)?;
    if !has_enough_blocks(&volume.read.superblock, &file.inode, contents.len()) {
        return Err(Fault::from(Question::EnoughFreeBlocks));
    }
    let read = volume.read;
    rewrite(&mut LiveMut { store }, &read, &file, contents);
    Ok(())
}
