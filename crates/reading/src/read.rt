// Reading a file into the caller's buffer.
ghost use Rattle.std.specs.Prelude.{◌≡◌, ℕ, ◌<◌, ◌≤◌, ◌++◌, length, drop, slice_index};
ghost use Rattle.layout.specs.Inodes.{blocks_for};
ghost use Rattle.volume.specs.Files.{file_bytes};
ghost use Rattle.reading.specs.Reads.{read_call};

use crate::file::find_file;
use faults::{Fault, Question};
use layout::inode::Inode;
use layout::name::is_lawful;
use store::interface::Store;
use store::liveness::Live;
use volume::contents::load_blocks;
use volume::sound::open;

// Fills the front of the buffer with the bytes of a file.
fn load_bytes<S: Store>(live: &Live<'_, S>, inode: &Inode, buffer: &mut [u8])
    requires few { inode.now.size ≤ 4096 }
    requires there { (j : ℕ) → j < blocks_for inode.now.size → slice_index inode.now.addresses j < length (S.Store.blocks live.now.store.now) }
    requires room { inode.now.size ≤ length buffer.old }
    ensures { buffer.new ≡ file_bytes (S.Store.blocks live.now.store.now) inode.now ++ drop inode.now.size buffer.old }
{
    let mut contents = [0; 4096];
    let size = inode.size as usize;
    load_blocks(live, &inode.addresses, inode.block_count(), &mut contents);
    buffer[..size].copy_from_slice(&contents[..size]);
}

// Fills the front of the buffer with the bytes of the file of that name, and answers its size.
pub fn read<S: Store>(store: &S, name: &[u8], buffer: &mut [u8]) -> Result<usize, Fault>
    ensures answer { result ≡ (read_call (S.Store.blocks store.now) (S.Store.marks store.now) name.now buffer.old).0 }
    ensures buffer { buffer.new ≡ (read_call (S.Store.blocks store.now) (S.Store.marks store.now) name.now buffer.old).1 }
{
    if !is_lawful(name) {
        return Err(Fault::from(Question::NameLawful));
    }
    let volume = open(store)?;
    let file = find_file(&volume, name)?;
    let size = file.inode.size as usize;
    if size > buffer.len() {
        return Err(Fault::from(Question::EnoughPlaces));
    }
    load_bytes(&volume.live, &file.inode, buffer);
    Ok(size)
}
