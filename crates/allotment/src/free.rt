// The steps of the free list that a superblock holds: giving blocks back, and taking them.
ghost use Rattle.std.specs.Prelude.{◌≡◌, ◌+◌, ◌-◌, ◌<◌, ◌≤◌, ◌++◌, reverse, length, replicate};
ghost use Rattle.layout.specs.Superblocks.{nfree_of};
ghost use Rattle.allotment.specs.FreeSteps.{given, gives, taken, next_free, takes, numbers_taken};

use layout::superblock::{free_at, nfree_of};
use layout::words::set_word;
use store::interface::Block;

// That so many places are in use stays a clause of each step: no type holds it, as each step changes it.

// The byte of the count of the places in use.
const NFREE: usize = 4;

// Gives a block back: its number goes to the first place that is not in use.
pub(crate) fn give(superblock: &mut Block, number: u16)
    requires { nfree_of superblock.old < 100 }
    ensures { superblock.new ≡ given superblock.old number }
{
    let nfree = nfree_of(superblock);
    set_word(superblock, 2 * (3 + nfree as usize), number);
    set_word(superblock, NFREE, nfree + 1);
}

// Gives back the blocks of these numbers, from last to first.
pub fn give_back(superblock: &mut Block, numbers: &[u16])
    requires { nfree_of superblock.old + length numbers.now ≤ 100 }
    ensures { superblock.new ≡ gives superblock.old (reverse numbers.now) }
{
    for number in numbers.iter().rev() {
        give(superblock, *number);
    }
}

// Takes a block: the one at the last place in use.
pub fn take_block(superblock: &mut Block) -> u16
    requires some { 1 ≤ nfree_of superblock.old }
    requires most { nfree_of superblock.old ≤ 100 }
    ensures number { result ≡ next_free superblock.old }
    ensures after { superblock.new ≡ taken superblock.old }
{
    let last = nfree_of(superblock) - 1;
    let number = free_at(superblock, last as usize);
    set_word(superblock, NFREE, last);
    number
}

// Takes n blocks in order, for the addresses of a file; the other addresses are 0.
pub fn take_blocks(superblock: &mut Block, n: usize) -> [u16; 8]
    requires few { n ≤ 8 }
    requires enough { n < nfree_of superblock.old }
    requires most { nfree_of superblock.old ≤ 100 }
    ensures numbers { result ≡ numbers_taken superblock.old n ++ replicate (8 - n) 0 }
    ensures after { superblock.new ≡ takes superblock.old n }
{
    let mut addresses = [0; 8];
    for address in addresses[..n].iter_mut() {
        *address = take_block(superblock);
    }
    addresses
}
