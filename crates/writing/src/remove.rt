// A file removed.
ghost use Rattle.store.specs.Lives.{Leads};
ghost use Rattle.reading.specs.Found.{FileIn};
ghost use Rattle.allotment.specs.Calls.{Served};
ghost use Rattle.writing.specs.Changes.{IsSoundWith};
ghost use Rattle.writing.specs.Removes.{removed, remove_call};

use crate::write::give_file_back;
use allotment::records::{put_entry_number, put_inode};
use faults::{Fault, Question};
use layout::inode::Inode;
use layout::name::is_lawful;
use reading::file::{File, find_file};
use store::interface::Store;
use store::liveness::LiveMut;
use volume::loaded::Volume;
use volume::sound::open;

// Gives back the blocks of a file, zeroes its inode and empties its entry. The volume is sound until the first put.
fn discard<S: Store>(live: &mut LiveMut<'_, S>, volume: &Volume, file: &File)
    requires sound { IsSoundWith (S.Store.blocks live.old.store.now) volume.now }
    requires found { FileIn (S.Store.blocks live.old.store.now) file.now }
    ensures { Leads S.Store.blocks S.Store.moved (removed (S.Store.blocks live.old.store.now) file.now) live.old.store live.new.store }
{
    let mut superblock = volume.superblock;
    give_file_back(&mut superblock, &file.inode);
    live.put(1, &superblock);
    let zeros = Inode::default();
    put_inode(live, file.number, &zeros);
    put_entry_number(live, &volume.root.addresses, file.entry, 0);
}

// Removes the file of that name.
pub fn remove<S: Store>(store: &mut S, name: &[u8]) -> Result<(), Fault>
    ensures { Served S.Store.blocks S.Store.marks S.Store.moved (remove_call (S.Store.blocks store.old) (S.Store.marks store.old) name.now) store.old store.new result }
{
    if !is_lawful(name) {
        return Err(Fault::from(Question::NameLawful));
    }
    let volume = open(store)?;
    let file = find_file(&volume, name)?;
    let read = volume.read;
    discard(&mut LiveMut { store }, &read, &file);
    Ok(())
}
