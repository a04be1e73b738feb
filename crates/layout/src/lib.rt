// The Sixth Edition layout of a volume: words, the superblock, inodes, directory entries and names.
#![tactic(auto)]

pub mod entry;
pub mod inode;
pub mod name;
pub mod superblock;
pub mod words;
pub mod worked;
