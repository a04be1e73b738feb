// The superblock, block 1 of a volume.
ghost use Rattle.std.specs.Prelude.{◌≡◌, ◌<◌};
ghost use Rattle.layout.specs.Superblocks.{isize_of, fsize_of, nfree_of, free_at, is_data};
ghost use Rattle.layout.specs.Words.{words_at};

use crate::words::{read_words, word_at};
use store::interface::Block;

// The places of the free list.
pub const FREE_PLACES: usize = 100;

// The blocks of the inode list. Each word that has a name has a reader: one reader that takes the word's number would name none of them.
pub fn isize_of(superblock: &Block) -> u16
    ensures { result ≡ isize_of superblock.now }
{
    word_at(superblock, 0)
}

// The blocks in all, as the superblock has it.
pub fn fsize_of(superblock: &Block) -> u16
    ensures { result ≡ fsize_of superblock.now }
{
    word_at(superblock, 2)
}

// How many places of the free list are in use.
pub fn nfree_of(superblock: &Block) -> u16
    ensures { result ≡ nfree_of superblock.now }
{
    word_at(superblock, 4)
}

// Place j of the free list.
pub fn free_at(superblock: &Block, j: usize) -> u16
    requires { j < 100 }
    ensures { result ≡ free_at superblock.now j }
{
    word_at(superblock, 2 * (3 + j))
}

// The places of the free list, in use or not.
pub fn free_places(superblock: &Block) -> [u16; 100]
    ensures { result ≡ words_at 100 superblock.now 6 }
{
    let mut places = [0; 100];
    read_words(superblock, 6, &mut places);
    places
}

// The data blocks of a volume with so many blocks of inodes and so many in all: behind the inode list, and below the count.
#[derive(Clone, Copy, Debug)]
pub struct DataBlocks {
    pub isize: u16,
    pub count: usize,
}

impl DataBlocks {
    pub fn contains(&self, n: u16) -> bool
        ensures { result ≡ is_data self.now.isize self.now.count n }
    {
        (self.isize as usize + 2..self.count).contains(&(n as usize))
    }
}
