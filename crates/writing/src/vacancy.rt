// Where a new file goes: a free inode and an entry of the directory.
ghost use Rattle.std.specs.Prelude.{◌≡◌, ◌<◌, ◌≤◌};
ghost use Rattle.layout.specs.Entries.{entry_at};
ghost use Rattle.layout.specs.Superblocks.{nfree_of};
ghost use Rattle.reading.specs.Lowest.{lowest};
ghost use Rattle.writing.specs.Creates.{free_inode, is_empty, free_entry, needs_block, has_room, vacancy_in};
ghost use Rattle.writing.specs.FreeInodes.{free_after};

use faults::{Fault, Question};
use layout::inode::Inode;
use layout::superblock::{isize_of, nfree_of};
use store::interface::Store;
use volume::directory::Directory;
use volume::loaded::Volume;
use volume::sound::SoundVolume;
use volume::visit::{Visitor, visit_inodes};

// The most entries of a directory.
const MAX_ENTRIES: usize = 256;

#[derive(Clone, Copy)]
pub(crate) struct Vacancy {
    pub(crate) inode: u16,
    pub(crate) entry: usize,
}

// The lowest free inode so far.
#[derive(Clone, Copy)]
struct FreeInode {
    found: Option<usize>,
}

impl Visitor for FreeInode {
    ghost after = { free_after };

    fn visit(&mut self, i: usize, inode: &Inode) {
        let here = (2 <= i && !inode.is_allocated()).then_some(i);
        self.found = self.found.or(here);
    }
}

// The lowest free inode, other than the first.
fn find_inode<S: Store>(volume: &SoundVolume<'_, S>) -> Option<usize>
    ensures { result ≡ free_inode (S.Store.blocks volume.now.live.store.now) }
{
    let mut lowest = FreeInode { found: None };
    let isize = isize_of(&volume.read.superblock);
    visit_inodes(&volume.live, isize as usize, &mut lowest);
    lowest.found
}

// Whether entry e is an empty one behind the first two.
fn is_empty(directory: &Directory, e: usize) -> bool
    requires { e < 256 }
    ensures { result ≡ is_empty (entry_at directory.now.bytes) e }
{
    2 <= e && directory.entry(e).inode == 0
}

// The first empty entry.
fn find_empty(directory: &Directory) -> Option<usize>
    ensures { result ≡ lowest directory.now.len (is_empty (entry_at directory.now.bytes)) }
{
    (0..directory.len).find(|e| is_empty(directory, *e))
}

// The first empty entry, else one more at the end, if there are fewer than 256.
fn find_slot(directory: &Directory) -> Option<usize>
    ensures { result ≡ free_entry (entry_at directory.now.bytes) directory.now.len }
{
    let next = (directory.len < MAX_ENTRIES).then_some(directory.len);
    find_empty(directory).or(next)
}

// Whether entry e of a directory needs a new block: it is one more, and the blocks so far are full.
pub(crate) fn needs_block(directory: &Directory, e: usize) -> bool
    ensures { result ≡ needs_block directory.now.len e }
{
    directory.len <= e && e % 32 == 0
}

// Whether entry e of the directory needs no new block, or one is free.
fn has_room(volume: &Volume, e: usize) -> bool
    requires { 1 ≤ nfree_of volume.now.superblock }
    ensures { result ≡ has_room volume.now.superblock volume.now.directory.len e }
{
    !needs_block(&volume.directory, e) || nfree_of(&volume.superblock) >= 2
}

// Questions 22, 23 and 24: a free inode, an entry, and a block for the entry where one is needed.
pub(crate) fn find_vacancy<S: Store>(volume: &SoundVolume<'_, S>) -> Result<Vacancy, Fault>
    ensures { result ≡ vacancy_in (S.Store.blocks volume.now.live.store.now) }
{
    let inode = find_inode(volume).ok_or(Question::InodeFree)?;
    let entry = find_slot(&volume.read.directory).ok_or(Question::EntryFree)?;
    if !has_room(&volume.read, entry) {
        return Err(Fault::from(Question::EnoughFreeBlocks));
    }
    Ok(Vacancy {
        inode: inode as u16,
        entry,
    })
}
