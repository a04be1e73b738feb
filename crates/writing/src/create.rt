// A file created.
ghost use Rattle.std.specs.Prelude.{◌≡◌, ◌+◌, ◌<◌, ◌≤◌, true, length, Ok};
ghost use Rattle.store.specs.Lives.{Leads};
ghost use Rattle.layout.specs.Superblocks.{nfree_of};
ghost use Rattle.volume.specs.Rules.{super_of, entry_count};
ghost use Rattle.allotment.specs.Calls.{Served};
ghost use Rattle.allotment.specs.FreeSteps.{next_free};
ghost use Rattle.allotment.specs.Volumes.{with_inode};
ghost use Rattle.writing.specs.Changes.{IsSoundWith};
ghost use Rattle.writing.specs.Creates.{has_room, vacancy_in, new_inode, directory_blocks, with_new_block, with_room, created, create_call};
ghost use Rattle.writing.specs.Writes.{with_blocks};

use crate::vacancy::{Vacancy, find_vacancy, needs_block};
use allotment::free::take_block;
use allotment::records::{put_entry, put_inode};
use faults::{Fault, Question};
use layout::entry::ENTRY_SIZE;
use layout::inode::Inode;
use layout::name::is_lawful;
use reading::lookup::{find_entry, name_field};
use store::interface::{Block, Store};
use store::liveness::LiveMut;
use volume::loaded::Volume;
use volume::sound::open;

// A new file: plain, readable and writable by all, and empty.
fn new_inode() -> Inode
    ensures { result ≡ new_inode }
{
    Inode {
        mode: 0x81b6,
        links: 1,
        ..Inode::default()
    }
}

// Takes a block, zeroes it, and answers its number.
fn add_block<S: Store>(live: &mut LiveMut<'_, S>, superblock: &Block) -> u16
    requires read { superblock.now ≡ super_of (S.Store.blocks live.old.store.now) }
    requires some { 1 ≤ nfree_of superblock.now }
    requires most { nfree_of superblock.now ≤ 100 }
    requires there { next_free superblock.now < length (S.Store.blocks live.old.store.now) }
    requires long { 1 < length (S.Store.blocks live.old.store.now) }
    ensures leads { Leads S.Store.blocks S.Store.moved (with_new_block (S.Store.blocks live.old.store.now)) live.old.store live.new.store }
    ensures number { result ≡ next_free superblock.now }
{
    let mut superblock = *superblock;
    let number = take_block(&mut superblock);
    live.put(1, &superblock);
    live.put(number as usize, &[0; 512]);
    number
}

// The directory's inode with one entry more, in the blocks of these numbers.
fn put_root<S: Store>(live: &mut LiveMut<'_, S>, root: Inode, addresses: &[u16; 8])
    requires within { 2 < length (S.Store.blocks live.old.store.now) }
    requires small { root.size ≤ 4096 }
    ensures { Leads S.Store.blocks S.Store.moved (with_inode (S.Store.blocks live.old.store.now) 1 (with_blocks root (root.size + 16) addresses.now)) live.old.store live.new.store }
{
    let size = root.size + ENTRY_SIZE as u32;
    let addresses = *addresses;
    let root = Inode {
        size,
        addresses,
        ..root
    };
    put_inode(live, 1, &root);
}

// Makes room for entry e: the directory gets one entry more if there is no such entry, in a new block where one is needed.
// Answers the blocks of the directory. That the volume is sound ends with the first put, so no type holds it here.
fn make_room<S: Store>(live: &mut LiveMut<'_, S>, volume: &Volume, e: usize) -> [u16; 8]
    requires sound { IsSoundWith (S.Store.blocks live.old.store.now) volume.now }
    requires few { e < 256 }
    requires room { has_room (super_of (S.Store.blocks live.old.store.now)) (entry_count (S.Store.blocks live.old.store.now)) e ≡ true }
    ensures leads { Leads S.Store.blocks S.Store.moved (with_room (S.Store.blocks live.old.store.now) e) live.old.store live.new.store }
    ensures numbers { result ≡ directory_blocks (S.Store.blocks live.old.store.now) e }
{
    let mut addresses = volume.root.addresses;
    if e < volume.directory.len {
        return addresses;
    }
    if needs_block(&volume.directory, e) {
        addresses[e / 32] = add_block(live, &volume.superblock);
    }
    put_root(live, volume.root, &addresses);
    addresses
}

// Puts the new file's inode and its entry, once there is room for the entry. The volume is sound until the first put.
fn enter<S: Store>(live: &mut LiveMut<'_, S>, volume: &Volume, vacancy: &Vacancy, name: &[u8])
    requires sound { IsSoundWith (S.Store.blocks live.old.store.now) volume.now }
    requires found { vacancy_in (S.Store.blocks live.old.store.now) ≡ Ok vacancy.now }
    requires short { length name.now ≤ 14 }
    ensures { Leads S.Store.blocks S.Store.moved (created (S.Store.blocks live.old.store.now) name.now vacancy.now) live.old.store live.new.store }
{
    let addresses = make_room(live, volume, vacancy.entry);
    put_inode(live, vacancy.inode, &new_inode());
    let field = name_field(name);
    put_entry(live, &addresses, vacancy.entry, vacancy.inode, &field);
}

// Creates an empty file of that name.
pub fn create<S: Store>(store: &mut S, name: &[u8]) -> Result<(), Fault>
    ensures { Served S.Store.blocks S.Store.marks S.Store.moved (create_call (S.Store.blocks store.old) (S.Store.marks store.old) name.now) store.old store.new result }
{
    if !is_lawful(name) {
        return Err(Fault::from(Question::NameLawful));
    }
    let volume = open(store)?;
    if find_entry(&volume.read.directory, name).is_some() {
        return Err(Fault::from(Question::NameAbsent));
    }
    let vacancy = find_vacancy(&volume)?;
    let read = volume.read;
    enter(&mut LiveMut { store }, &read, &vacancy, name);
    Ok(())
}
