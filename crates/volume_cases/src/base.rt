// A sound volume laid out by hand, and changes to it byte by byte.
use std::alloc::{AllocError, Global};

// A block, a byte of it, and the value that this gets: a tuple, so that each of the many rows stands on one line.
pub type Patch = (usize, usize, u8);

// Ten blocks, two of them of inodes, so that inode 17 begins block 3. The directory in block 4 has "bolt", inode 2, with 600 bytes in blocks 5
// and 6; then an empty entry; then "nut", inode 17, with one byte in block 7. Blocks 9 and 8 are free.
static SOUND: [Patch; 52] = [
    // isize 2, fsize 10, nfree 3; free[0] 0, free[1] 9, free[2] 8
    (1, 0, 2),
    (1, 2, 10),
    (1, 4, 3),
    (1, 8, 9),
    (1, 10, 8),
    // inode 1: mode 0xC1FF, 2 links, size 80, address 4
    (2, 0, 0xff),
    (2, 1, 0xc1),
    (2, 2, 2),
    (2, 6, 80),
    (2, 8, 4),
    // inode 2: mode 0x81B6, 1 link, size 600, addresses 5 and 6
    (2, 32, 0xb6),
    (2, 33, 0x81),
    (2, 34, 1),
    (2, 38, 0x58),
    (2, 39, 2),
    (2, 40, 5),
    (2, 42, 6),
    // inode 17: mode 0x81B6, 1 link, size 1, address 7
    (3, 0, 0xb6),
    (3, 1, 0x81),
    (3, 2, 1),
    (3, 6, 1),
    (3, 8, 7),
    // entries 0 and 1
    (4, 0, 1),
    (4, 2, b'.'),
    (4, 16, 1),
    (4, 18, b'.'),
    (4, 19, b'.'),
    // entry 2
    (4, 32, 2),
    (4, 34, b'b'),
    (4, 35, b'o'),
    (4, 36, b'l'),
    (4, 37, b't'),
    // entry 4
    (4, 64, 17),
    (4, 66, b'n'),
    (4, 67, b'u'),
    (4, 68, b't'),
    // what no rule reads: block 0, word 103 of the superblock, a stale place of the free list, free inodes, times, users, the empty entry's
    // name, the bytes behind the last entry, the files' bytes
    (0, 0, 0xaa),
    (0, 511, 0xaa),
    (1, 206, 0xaa),
    (1, 511, 0xaa),
    (1, 12, 4),
    (1, 205, 0xff),
    (2, 64, 0xff),
    (2, 65, 0x7f),
    (2, 66, 9),
    (2, 35, 7),
    (2, 36, 8),
    (2, 63, 0xaa),
    (4, 50, b'/'),
    (4, 80, 5),
    (5, 0, b'#'),
    (9, 511, 0xaa),
];

// Writes each byte where the memory has its place.
pub fn patch(memory: &mut [u8], patches: &[Patch]) {
    for (block, byte, value) in patches.iter().copied() {
        let at = block.saturating_mul(512).saturating_add(byte);
        if let Some(place) = memory.get_mut(at) {
            *place = value;
        }
    }
}

pub fn zeros(heap: Global, blocks: usize) -> Result<Vec<u8>, AllocError> {
    vec![in heap; 0u8; blocks.saturating_mul(512)]
}

// The sound volume.
pub fn sound(heap: Global) -> Result<Vec<u8>, AllocError> {
    let mut memory = zeros(heap, 10)?;
    patch(memory.as_mut_slice(), &SOUND);
    Ok(memory)
}
