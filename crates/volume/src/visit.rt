// Going through the inodes of a volume in order, each block of them fetched once.
ghost use Rattle.std.specs.Prelude.{◌≡◌, ℕ, ◌+◌, ◌*◌, ◌≤◌, length};
ghost use Rattle.volume.specs.Visits.{visited, visited_in};
ghost use Rattle.layout.specs.declared.inode.Inode.{Inode};

use layout::inode::{INODE_SIZE, Inode};
use store::interface::{Block, Store};
use store::liveness::Live;

// The inode records of a block.
const INODES_PER_BLOCK: usize = 16;

// What looks at each inode in turn. A type and no closure: its ghost member says in one equation what it has become, where the contract of a
// closure would give a relation for each call.
pub trait Visitor {
    ghost after: { Self → ℕ → Inode → Self };

    fn visit(&mut self, i: usize, inode: &Inode)
        ensures { self.new ≡ after self.old i inode.now };
}

// The sixteen inodes of one block, the first of which is number first + 1.
fn visit_block<V: Visitor>(block: &Block, first: usize, visitor: &mut V)
    requires { first ≤ 65536 }
    ensures { visitor.new ≡ visited_in V.Visitor.after block.now first 16 visitor.old }
{
    // n is also the inode's number behind first.
    for n in 0..INODES_PER_BLOCK {
        let inode = Inode::decode(block, INODE_SIZE * n);
        visitor.visit(first + (n + 1), &inode);
    }
}

// All inodes, in order.
pub fn visit_inodes<S: Store, V: Visitor>(live: &Live<'_, S>, isize: usize, visitor: &mut V)
    requires within { isize + 2 ≤ length (S.Store.blocks live.now.store.now) }
    requires few { isize ≤ 4096 }
    ensures { visitor.new ≡ visited V.Visitor.after (S.Store.blocks live.now.store.now) (16 * isize) visitor.old }
{
    // k is also the place of the block.
    for k in 0..isize {
        let block = live.load(k + 2);
        visit_block(&block, INODES_PER_BLOCK * k, visitor);
    }
}
