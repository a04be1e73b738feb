// The exclusive or of two blocks.
ghost use Rattle.std.specs.Prelude.{◌≡◌};
ghost use Rattle.wallet.specs.Levels.{xor_block};

use std::array;
use store::interface::Block;

// Each byte is the exclusive or of the two bytes at the same place.
pub(crate) fn xor(a: &Block, b: &Block) -> Block
    ensures { result ≡ xor_block a.now b.now }
{
    array::from_fn(|p| a[p] ^ b[p])
}
