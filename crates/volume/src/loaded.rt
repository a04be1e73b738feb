// What the check of a volume has read of it.
use crate::directory::Directory;
use layout::inode::Inode;
use store::interface::Block;

#[derive(Clone, Copy)]
pub struct Volume {
    pub superblock: Block,
    // Inode 1, the directory.
    pub root: Inode,
    pub directory: Directory,
}
