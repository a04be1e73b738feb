// The rules behind those of the superblock, one function a rule, and what they find out in order.
ghost use Rattle.std.specs.Prelude.{◌≡◌, true, length};
ghost use Rattle.layout.specs.Inodes.{inode_of};
ghost use Rattle.volume.specs.Openings.{LoadedDirectory, Inspected};
ghost use Rattle.volume.specs.Rules.{super_of, isize_in, s1, s2, s3, s4, s5, s6, s8};
ghost use Rattle.volume.specs.Soundness.{broken_entries, broken_addresses, broken_inodes};

use crate::contents::load_directory;
use crate::directory::Directory;
use crate::each::{Addressed, FreeOrPlain, every_inode};
use crate::entered::Entered;
use crate::kinds::is_directory;
use crate::loaded::Volume;
use crate::map::InodeMap;
use crate::rule::Rule;
use crate::tally::Tally;
use crate::visit::visit_inodes;
use layout::inode::Inode;
use layout::superblock::{DataBlocks, isize_of};
use store::interface::{Block, Store};
use store::liveness::Live;

// A live volume whose superblock breaks no rule, with that superblock.
#[derive(Drop)]
pub(crate) struct Framed<'a, S: Store> {
    pub(crate) live: &'a Live<'a, S>,
    pub(crate) superblock: Block,
    ghost read: { superblock ≡ super_of (S.Store.blocks live.now.store.now) },
    ghost sizes: { s1 (S.Store.blocks live.now.store.now) ≡ true },
    ghost free: { s2 (S.Store.blocks live.now.store.now) ≡ true },
}

impl<'a, S: Store> Framed<'a, S> {
    // The blocks of the inode list.
    fn isize(&self) -> usize
        ensures { result ≡ isize_in (S.Store.blocks self.now.live.now.store.now) }
    {
        isize_of(&self.superblock) as usize
    }

    fn data_blocks(&self) -> DataBlocks
        ensures isize { result.isize ≡ isize_in (S.Store.blocks self.now.live.now.store.now) }
        ensures count { result.count ≡ length (S.Store.blocks self.now.live.now.store.now) }
    {
        DataBlocks {
            isize: isize_of(&self.superblock),
            count: self.live.store.count(),
        }
    }

    // Inode 1, the root directory.
    fn load_root(&self) -> Inode
        ensures { result ≡ inode_of (S.Store.blocks self.now.live.now.store.now) 1 }
    {
        Inode::decode(&self.live.load(2), 0)
    }

    // The fourth rule: each inode but the first is free or a plain file.
    fn inodes_are_good(&self) -> bool
        ensures { result ≡ s4 (S.Store.blocks self.now.live.now.store.now) }
    {
        every_inode(self.live, self.isize(), FreeOrPlain)
    }

    // The fifth rule: the addresses of each allocated inode are good.
    fn addresses_are_good(&self) -> bool
        ensures { result ≡ s5 (S.Store.blocks self.now.live.now.store.now) }
    {
        let data = self.data_blocks();
        every_inode(self.live, self.isize(), Addressed { data })
    }

    // The sixth rule: each data block stands exactly once in the free list and the addresses of the allocated inodes.
    fn blocks_stand_once(&self) -> bool
        ensures { result ≡ s6 (S.Store.blocks self.now.live.now.store.now) }
    {
        let mut tally = Tally { counts: [0; 100] };
        tally.add_free(&self.superblock);
        visit_inodes(self.live, self.isize(), &mut tally);
        tally.is_each_once(self.data_blocks())
    }

    // The eighth rule, of the directory that has been loaded.
    fn entries_are_good(&self, directory: &Directory) -> bool
        requires { LoadedDirectory (S.Store.blocks self.now.live.now.store.now) directory.now }
        ensures { result ≡ s8 (S.Store.blocks self.now.live.now.store.now) }
    {
        if !directory.is_all_well_named() {
            return false;
        }
        let isize = self.isize();
        let mut map = InodeMap {
            allocated: [false; 1553],
        };
        visit_inodes(self.live, isize, &mut map);
        if !directory.is_all_numbered_by(&map.allocated, 16 * isize) {
            return false;
        }
        every_inode(self.live, isize, Entered { directory })
    }

    // The rules of the directory, where those before them hold.
    fn inspect_entries(&self, root: &Inode) -> Result<Volume, Rule>
        requires first { root.now ≡ inode_of (S.Store.blocks self.now.live.now.store.now) 1 }
        requires root { s3 (S.Store.blocks self.now.live.now.store.now) ≡ true }
        requires addresses { s5 (S.Store.blocks self.now.live.now.store.now) ≡ true }
        ensures { Inspected (S.Store.blocks self.now.live.now.store.now) (broken_entries (S.Store.blocks self.now.live.now.store.now)) result }
    {
        let directory = load_directory(self.live, root);
        if !directory.has_good_dots() {
            return Err(Rule::Dots);
        }
        if !self.entries_are_good(&directory) {
            return Err(Rule::Entries);
        }
        Ok(Volume {
            superblock: self.superblock,
            root: *root,
            directory,
        })
    }

    // The rules from the addresses on, where those before them hold.
    fn inspect_addresses(&self, root: &Inode) -> Result<Volume, Rule>
        requires first { root.now ≡ inode_of (S.Store.blocks self.now.live.now.store.now) 1 }
        requires root { s3 (S.Store.blocks self.now.live.now.store.now) ≡ true }
        ensures { Inspected (S.Store.blocks self.now.live.now.store.now) (broken_addresses (S.Store.blocks self.now.live.now.store.now)) result }
    {
        if !self.addresses_are_good() {
            return Err(Rule::Addresses);
        }
        if !self.blocks_stand_once() {
            return Err(Rule::Blocks);
        }
        self.inspect_entries(root)
    }

    // The rules from the inodes on.
    pub(crate) fn inspect_inodes(&self) -> Result<Volume, Rule>
        ensures { Inspected (S.Store.blocks self.now.live.now.store.now) (broken_inodes (S.Store.blocks self.now.live.now.store.now)) result }
    {
        let root = self.load_root();
        if !is_directory(&root) {
            return Err(Rule::Root);
        }
        if !self.inodes_are_good() {
            return Err(Rule::Inodes);
        }
        self.inspect_addresses(&root)
    }
}
