// Bytes made into a block.
ghost use Rattle.std.specs.Prelude.{◌≡◌};
ghost use Rattle.store.specs.Padding.{padded_to};

use crate::interface::{BLOCK_SIZE, Block};

// The bytes of one block, filled up with zeros. What does not fit is left out.
pub fn padded(part: &[u8]) -> Block
    ensures { result ≡ padded_to part.now }
{
    let mut block = [0; 512];
    let len = part.len().min(BLOCK_SIZE);
    block[..len].copy_from_slice(&part[..len]);
    block
}
