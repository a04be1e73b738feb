// The rules of a superblock.
ghost use Rattle.std.specs.Prelude.{◌≡◌};
ghost use Rattle.volume.specs.Rules.{good_sizes, good_free};

use crate::numbers::{are_data, are_different};
use layout::superblock::{DataBlocks, FREE_PLACES, free_places, fsize_of, isize_of, nfree_of};
use store::interface::Block;

// The most blocks of a volume.
pub const MAX_VOLUME: usize = 100;

// The first rule, of the superblock of a volume of so many blocks.
pub(crate) fn sizes_are_good(superblock: &Block, count: usize) -> bool
    ensures { result ≡ good_sizes superblock.now count }
{
    let isize = isize_of(superblock) as usize;
    let fsize = fsize_of(superblock) as usize;
    count <= MAX_VOLUME && 1 <= isize && isize + 3 <= count && fsize == count
}

// The second rule.
pub(crate) fn free_list_is_good(superblock: &Block, count: usize) -> bool
    ensures { result ≡ good_free superblock.now count }
{
    let nfree = nfree_of(superblock) as usize;
    if nfree == 0 || nfree > FREE_PLACES {
        return false;
    }
    let places = free_places(superblock);
    if places[0] != 0 {
        return false;
    }
    let named = &places[1..nfree];
    let isize = isize_of(superblock);
    are_data(named, DataBlocks { isize, count }) && are_different(named)
}
