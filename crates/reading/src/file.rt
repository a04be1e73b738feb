// A file of a volume, found by its name.
ghost use Rattle.std.specs.Prelude.{◌≡◌, ◌<◌, ◌≤◌, true, length};
ghost use Rattle.layout.specs.Inodes.{inode_block, inode_of};
ghost use Rattle.volume.specs.Directories.{used};
ghost use Rattle.volume.specs.Rules.{directory_of};
ghost use Rattle.reading.specs.Found.{file_of_entry, file_named};

use crate::lookup::find_entry;
use faults::{Fault, Question};
use layout::inode::{INODE_SIZE, Inode};
use store::interface::Store;
use store::liveness::Live;
use volume::sound::SoundVolume;

#[derive(Clone, Copy, Debug)]
pub struct File {
    // Its entry in the directory.
    pub entry: usize,
    // The number of its inode.
    pub number: u16,
    pub inode: Inode,
}

// Inode i of a volume.
pub fn load_inode<S: Store>(live: &Live<'_, S>, i: u16) -> Inode
    requires { inode_block i < length (S.Store.blocks live.now.store.now) }
    ensures { result ≡ inode_of (S.Store.blocks live.now.store.now) i }
{
    let place = i as usize + 31;
    let block = live.load(place / 16);
    Inode::decode(&block, INODE_SIZE * (place % 16))
}

// The file of entry e.
fn load_file<S: Store>(volume: &SoundVolume<'_, S>, e: usize) -> File
    requires within { e < volume.now.read.directory.len }
    requires listed { used (directory_of (S.Store.blocks volume.now.live.store.now)) e ≡ true }
    ensures { result ≡ file_of_entry (S.Store.blocks volume.now.live.store.now) e }
{
    let number = volume.read.directory.entry(e).inode;
    File {
        entry: e,
        number,
        inode: load_inode(&volume.live, number),
    }
}

// Question 21: the file of that name.
pub fn find_file<S: Store>(volume: &SoundVolume<'_, S>, name: &[u8]) -> Result<File, Fault>
    requires { length name.now ≤ 14 }
    ensures { result ≡ file_named (S.Store.blocks volume.now.live.store.now) name.now }
{
    let e = find_entry(&volume.read.directory, name).ok_or(Question::NamePresent)?;
    Ok(load_file(volume, e))
}
