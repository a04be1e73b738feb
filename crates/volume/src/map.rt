// Which inodes of a volume are allocated.
ghost use Rattle.volume.specs.Maps.{map_after};

use crate::visit::Visitor;
use layout::inode::Inode;

// A place for each inode number of the longest inode list, 97 blocks of 16, and for number 0.
#[derive(Clone, Copy)]
pub(crate) struct InodeMap {
    pub(crate) allocated: [bool; 1553],
}

impl Visitor for InodeMap {
    ghost after = { map_after };

    fn visit(&mut self, i: usize, inode: &Inode) {
        // By index, since nothing is known of the elements once a borrow by get_mut is over.
        if i < self.allocated.len() {
            self.allocated[i] = inode.is_allocated();
        }
    }
}
