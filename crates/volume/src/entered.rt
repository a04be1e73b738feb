// The last part of the eighth rule: each allocated inode but the first has exactly one entry.
ghost use Rattle.layout.specs.Entries.{entry_at};
ghost use Rattle.volume.specs.Directories.{entered};

use crate::directory::Directory;
use crate::each::InodeTest;
use layout::inode::Inode;

#[derive(Clone, Copy)]
pub(crate) struct Entered<'a> {
    pub(crate) directory: &'a Directory,
}

impl<'a> InodeTest for Entered<'a> {
    ghost passes = { λ t. entered (entry_at t.directory.now.bytes) t.directory.now.len };

    fn test(&self, i: usize, inode: &Inode) -> bool {
        i == 1 || !inode.is_allocated() || self.directory.entries_for(i) == 1
    }
}
