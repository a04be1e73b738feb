// How often each block of a volume is named.
ghost use Rattle.std.specs.Prelude.{◌≡◌, ◌<◌, ◌≤◌};
ghost use Rattle.volume.specs.Every.{every};
ghost use Rattle.layout.specs.Superblocks.{nfree_of, free_list};

use crate::visit::Visitor;
use layout::inode::Inode;
use layout::superblock::{DataBlocks, free_places, nfree_of};
use store::interface::Block;

// For each block, how often it is named, up to 255.
#[derive(Clone, Copy)]
pub(crate) struct Tally {
    pub(crate) counts: [u8; 100],
}

impl Tally {
    ghost use Rattle.volume.specs.Tallies.{bumped, tallied, once_in};

    // Counts one more for a number; one past the end is not counted.
    fn add(&mut self, number: u16)
        ensures { self.new.counts ≡ bumped self.old.counts number }
    {
        // By index, since nothing is known of the elements once a borrow by get_mut is over.
        let n = number as usize;
        if n < self.counts.len() {
            self.counts[n] = self.counts[n].saturating_add(1);
        }
    }

    // Counts each of the numbers.
    fn add_all(&mut self, numbers: &[u16])
        ensures { self.new.counts ≡ tallied self.old.counts numbers.now }
    {
        for number in numbers {
            self.add(*number);
        }
    }

    // Counts the numbers of the free list, which has 1 to 100 places in use.
    pub(crate) fn add_free(&mut self, superblock: &Block)
        requires least { 1 ≤ nfree_of superblock.now }
        requires most { nfree_of superblock.now ≤ 100 }
        ensures { self.new.counts ≡ tallied self.old.counts (free_list superblock.now) }
    {
        let nfree = nfree_of(superblock) as usize;
        self.add_all(&free_places(superblock)[1..nfree]);
    }

    // Whether block n has been counted exactly once, if it is a data block.
    fn is_once(&self, data_blocks: DataBlocks, n: usize) -> bool
        requires { n < 100 }
        ensures { result ≡ once_in self.now.counts data_blocks.isize data_blocks.count n }
    {
        !data_blocks.contains(n as u16) || self.counts[n] == 1
    }

    // Whether each data block has been counted exactly once.
    pub(crate) fn is_each_once(&self, data_blocks: DataBlocks) -> bool
        requires { data_blocks.count ≤ 100 }
        ensures { result ≡ every data_blocks.count (once_in self.now.counts data_blocks.isize data_blocks.count) }
    {
        (0..data_blocks.count).all(|n| self.is_once(data_blocks, n))
    }
}

impl Visitor for Tally {
    ghost use Rattle.volume.specs.Tallies.{tally_after};

    ghost after = { tally_after };

    fn visit(&mut self, _i: usize, inode: &Inode) {
        if inode.is_allocated() {
            self.add_all(&inode.addresses);
        }
    }
}
