// Contents to write and to compare: byte i is (seed + i) mod 251, so that no two blocks of a file are alike.
use std::alloc::{AllocError, Global};

fn byte_of(seed: u8, i: usize) -> u8 {
    ((i % 251 + usize::from(seed)) % 251) as u8
}

pub fn contents(alloc: Global, seed: u8, len: usize) -> Result<Vec<u8>, AllocError> {
    (0..len).map(|i| byte_of(seed, i)).collect(alloc)
}

// Whether the first bytes are the contents and the later ones are still what they were brought as.
pub fn holds(bytes: &[u8], size: usize, seed: u8, brought: u8) -> bool {
    bytes.iter().enumerate().all(|(i, byte)| *byte
        == if i < size { byte_of(seed, i) } else { brought })
}
