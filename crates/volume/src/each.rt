// Tests that each inode of a volume has to pass.
ghost use Rattle.std.specs.Prelude.{◌≡◌, ℕ, ◌+◌, ◌<◌, ◌≤◌, Bool, length};
ghost use Rattle.volume.specs.Every.{every};
ghost use Rattle.volume.specs.Tests.{each_after};
ghost use Rattle.volume.specs.Rules.{every_inode, free_or_plain, good_address, good_addresses};
ghost use Rattle.layout.specs.declared.inode.Inode.{Inode};

use crate::kinds::is_plain_file;
use crate::visit::{Visitor, visit_inodes};
use layout::inode::Inode;
use layout::superblock::DataBlocks;
use store::interface::Store;
use store::liveness::Live;

// A test is a type and no closure: its ghost member names the rule, so that what every inode passes is one equation. All that a closure
// promises of a call is a relation, which each caller would have to tie to its rule.
pub(crate) trait InodeTest {
    ghost passes: { Self → ℕ → Inode → Bool };

    fn test(&self, i: usize, inode: &Inode) -> bool
        ensures { result ≡ passes self.now i inode.now };
}

// Whether each inode so far has passed.
#[derive(Drop)]
struct Each<T> {
    test: T,
    passed: bool,
}

impl<T: InodeTest> Visitor for Each<T> {
    ghost after = { each_after T.InodeTest.passes };

    fn visit(&mut self, i: usize, inode: &Inode) {
        let passes = self.test.test(i, inode);
        self.passed = passes & self.passed;
    }
}

// Whether every inode of the volume passes.
pub(crate) fn every_inode<S: Store, T: InodeTest + Drop>(
    live: &Live<'_, S>,
    isize: usize,
    test: T,
) -> bool
    requires within { isize + 2 ≤ length (S.Store.blocks live.now.store.now) }
    requires few { isize ≤ 4096 }
    ensures { result ≡ every_inode (T.InodeTest.passes test) (S.Store.blocks live.now.store.now) isize }
{
    let mut each = Each { test, passed: true };
    visit_inodes(live, isize, &mut each);
    each.passed
}

// The fourth rule: each inode but the first is free or a plain file.
#[derive(Clone, Copy)]
pub(crate) struct FreeOrPlain;

impl InodeTest for FreeOrPlain {
    ghost passes = { λ _. free_or_plain };

    fn test(&self, i: usize, inode: &Inode) -> bool {
        i == 1 || !inode.is_allocated() || is_plain_file(inode)
    }
}

// The fifth rule: the addresses of an allocated inode are data blocks as far as its size reaches, and 0 behind.
#[derive(Clone, Copy)]
pub(crate) struct Addressed {
    pub(crate) data: DataBlocks,
}

impl Addressed {
    fn is_good(&self, inode: &Inode, j: usize) -> bool
        requires { j < 8 }
        ensures { result ≡ good_address self.now.data.isize self.now.data.count inode.now j }
    {
        let address = inode.addresses[j];
        if j < inode.block_count() {
            self.data.contains(address)
        } else {
            address == 0
        }
    }

    // Whether the first n addresses are good.
    fn are_good(&self, inode: &Inode, n: usize) -> bool
        requires { n ≤ 8 }
        ensures { result ≡ every n (good_address self.now.data.isize self.now.data.count inode.now) }
    {
        (0..n).all(|j| self.is_good(inode, j))
    }
}

impl InodeTest for Addressed {
    ghost passes = { λ a _. good_addresses a.data.isize a.data.count };

    fn test(&self, _i: usize, inode: &Inode) -> bool {
        !inode.is_allocated() || self.are_good(inode, 8)
    }
}
