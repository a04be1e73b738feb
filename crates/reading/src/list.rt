// Listing the files of a volume into the caller's records.
ghost use Rattle.std.specs.Prelude.{◌≡◌, ◌<◌, ◌≤◌, true, ◌++◌, length, drop};
ghost use Rattle.layout.specs.Entries.{entry_at};
ghost use Rattle.volume.specs.Directories.{used};
ghost use Rattle.volume.specs.Rules.{directory_of};
ghost use Rattle.volume.specs.VolumeFiles.{used_among};
ghost use Rattle.reading.specs.Listings.{record_at, records_of, list_call};

use crate::file::load_inode;
use faults::{Fault, Question};
use store::interface::Store;
use volume::directory::Directory;
use volume::sound::{SoundVolume, open};

// What is told of a file. The name is filled up with zeros.
#[derive(Clone, Copy, Debug)]
pub struct FileRecord {
    pub name: [u8; 14],
    pub inode: u16,
    pub size: u32,
}

// How many of the entries are used.
fn count_used(directory: &Directory) -> usize
    ensures { result ≡ length (used_among (entry_at directory.now.bytes) directory.now.len) }
{
    (0..directory.len).filter(|e| directory.is_used(*e)).count()
}

// The record of a used entry.
fn load_record<S: Store>(volume: &SoundVolume<'_, S>, e: usize) -> FileRecord
    requires within { e < volume.now.read.directory.len }
    requires listed { used (directory_of (S.Store.blocks volume.now.live.store.now)) e ≡ true }
    ensures { result ≡ record_at (S.Store.blocks volume.now.live.store.now) (directory_of (S.Store.blocks volume.now.live.store.now)) e }
{
    let entry = volume.read.directory.entry(e);
    let name = entry.name;
    FileRecord {
        name,
        inode: entry.inode,
        size: load_inode(&volume.live, entry.inode).size,
    }
}

// Writes the records of the used entries over the front of the caller's, which has places enough.
fn fill_records<S: Store>(volume: &SoundVolume<'_, S>, records: &mut [FileRecord])
    requires { length (records_of (S.Store.blocks volume.now.live.store.now)) ≤ length records.old }
    ensures { records.new ≡ records_of (S.Store.blocks volume.now.live.store.now) ++ drop (length (records_of (S.Store.blocks volume.now.live.store.now))) records.old }
{
    let directory = &volume.read.directory;
    // Counted by hand, as no `for` over an iterator with a closure is proved in a function with a type parameter.
    let mut filled = 0;
    for e in 0..directory.len {
        if directory.is_used(e) {
            records[filled] = load_record(volume, e);
            filled += 1;
        }
    }
}

// Fills the front of the records with those of the files, in the order of the directory, and answers how many there are.
pub fn list<S: Store>(store: &S, records: &mut [FileRecord]) -> Result<usize, Fault>
    ensures answer { result ≡ (list_call (S.Store.blocks store.now) (S.Store.marks store.now) records.old).0 }
    ensures records { records.new ≡ (list_call (S.Store.blocks store.now) (S.Store.marks store.now) records.old).1 }
{
    let volume = open(store)?;
    let files = count_used(&volume.read.directory);
    if files > records.len() {
        return Err(Fault::from(Question::EnoughPlaces));
    }
    fill_records(&volume, records);
    Ok(files)
}
