// A pocket store: sixteen blocks inside itself, zero at first.
ghost use Rattle.std.specs.Prelude.{◌≡◌, [], replicate};
ghost use Rattle.store.specs.Pockets.{pocket_bytes, pocket_blocks, pocket_condemned};

use crate::plain::Plain;

// Sixteen blocks of 512 bytes, one after the other.
pub type Pocket = Plain<[u8; 8192]>;

impl Pocket {
    pub fn new() -> Pocket
        ensures blocks { pocket_blocks result ≡ replicate 16 (replicate 512 0) }
        ensures contents { pocket_bytes result ≡ replicate 8192 0 }
        ensures condemned { pocket_condemned result ≡ [] }
    {
        Plain::over([0; 8192])
    }
}
