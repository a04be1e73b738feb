// An inode record: 32 bytes of the inode list.
ghost use Rattle.std.specs.Prelude.{◌≡◌, ◌+◌, ◌≤◌, take, drop};
ghost use Rattle.layout.specs.Inodes.{inode_at, inode_bytes, Recorded, allocated, blocks_for};

use crate::words::{high, low, read_words, word_at};
use store::interface::{BLOCK_SIZE, Block};

// The bytes of an inode record, sixteen of which make a block.
pub const INODE_SIZE: usize = 32;

#[derive(Clone, Copy, Debug, Default, PartialEq, Eq)]
pub struct Inode {
    pub mode: u16,
    pub links: u8,
    pub user: u8,
    pub group: u8,
    pub size: u32,
    pub addresses: [u16; 8],
    pub times: [u8; 8],
}

impl Inode {
    // The record that begins at that byte of a block. No From, since it asks that the record lie within the block.
    pub fn decode(block: &Block, at: usize) -> Inode
        requires { at + 32 ≤ 512 }
        ensures value { result ≡ inode_at block.now at }
        ensures bytes { inode_bytes result ≡ take 32 (drop at block.now) }
    {
        let mut addresses = [0; 8];
        read_words(block, at + 8, &mut addresses);
        let mut times = [0; 8];
        times.copy_from_slice(&block[at + 24..at + 32]);
        Inode {
            mode: word_at(block, at),
            links: block[at + 2],
            user: block[at + 3],
            group: block[at + 4],
            size: u32::from_le_bytes([block[at + 6], block[at + 7], block[at + 5], 0]),
            addresses,
            times,
        }
    }

    // The 32 bytes of the record. A size has 24 bits there. No From, since the contract also tells that they read back as the record; the size
    // is divided, since `to_le_bytes` takes the check past its limits here.
    pub fn encode(&self) -> [u8; 32]
        ensures value { result ≡ inode_bytes self.now }
        ensures read_back { Recorded self.now → inode_at result 0 ≡ self.now }
    {
        let [a, b, c, d, e, f, g, h] = self.addresses;
        let [s, t, u, v, w, x, y, z] = self.times;
        let size = (self.size % 65536) as u16;
        [
            low(self.mode),
            high(self.mode),
            self.links,
            self.user,
            self.group,
            (self.size / 65536 % 256) as u8,
            low(size),
            high(size),
            low(a),
            high(a),
            low(b),
            high(b),
            low(c),
            high(c),
            low(d),
            high(d),
            low(e),
            high(e),
            low(f),
            high(f),
            low(g),
            high(g),
            low(h),
            high(h),
            s,
            t,
            u,
            v,
            w,
            x,
            y,
            z,
        ]
    }

    // The blocks that the file takes.
    pub fn block_count(&self) -> usize
        ensures { result ≡ blocks_for self.now.size }
    {
        (self.size as usize).div_ceil(BLOCK_SIZE)
    }

    pub fn is_allocated(&self) -> bool
        ensures { result ≡ allocated self.now }
    {
        self.mode & 0x8000 != 0
    }
}
