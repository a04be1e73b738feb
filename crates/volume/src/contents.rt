// The contents of a file, read block by block.
ghost use Rattle.std.specs.Prelude.{◌≡◌, ℕ, ◌*◌, ◌<◌, ◌≤◌, length, take, drop, slice_index};
ghost use Rattle.volume.specs.Files.{file_blocks};
ghost use Rattle.layout.specs.Inodes.{blocks_for, inode_of};
ghost use Rattle.volume.specs.Openings.{LoadedDirectory};

use crate::directory::Directory;
use layout::entry::ENTRY_SIZE;
use layout::inode::Inode;
use store::interface::{BLOCK_SIZE, Store};
use store::liveness::Live;

// Fills the front of the buffer with the first n blocks of a file.
pub fn load_blocks<S: Store>(
    live: &Live<'_, S>,
    addresses: &[u16; 8],
    n: usize,
    contents: &mut [u8; 4096],
)
    requires few { n ≤ 8 }
    requires there { (j : ℕ) → j < n → slice_index addresses.now j < length (S.Store.blocks live.now.store.now) }
    ensures front { take (512 * n) contents.new ≡ file_blocks (S.Store.blocks live.now.store.now) addresses.now n }
    ensures rest { drop (512 * n) contents.new ≡ drop (512 * n) contents.old }
{
    // By index, since nothing is known of the elements once a loop over chunks_exact_mut is over.
    for j in 0..n {
        let block = live.load(addresses[j] as usize);
        let start = BLOCK_SIZE * j;
        contents[start..start + BLOCK_SIZE].copy_from_slice(&block);
    }
}

// The directory of a volume, from its inode, with zeros behind its blocks.
pub(crate) fn load_directory<S: Store>(live: &Live<'_, S>, root: &Inode) -> Directory
    requires first { root.now ≡ inode_of (S.Store.blocks live.now.store.now) 1 }
    requires few { root.now.size ≤ 4096 }
    requires there { (j : ℕ) → j < blocks_for root.now.size → slice_index root.now.addresses j < length (S.Store.blocks live.now.store.now) }
    ensures { LoadedDirectory (S.Store.blocks live.now.store.now) result }
{
    let mut bytes = [0; 4096];
    load_blocks(live, &root.addresses, root.block_count(), &mut bytes);
    let len = root.size as usize / ENTRY_SIZE;
    Directory { bytes, len }
}
