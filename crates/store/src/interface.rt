// The store interface: a list of blocks with a mark for each, and the four calls on it.
ghost use Rattle.std.specs.Prelude.{◌≡◌, ℕ, List, length, is_ok};
ghost use Rattle.store.specs.Stores.{Mark, Laws, asked, Fetched, Placed};

use faults::Fault;

// The bytes of a block, and of every block buffer.
pub const BLOCK_SIZE: usize = 512;

// The most blocks that a store may show.
pub const MAX_BLOCKS: usize = 1_048_576;

pub type Block = [u8; BLOCK_SIZE];

// Code over a store is proved against the two lists alone. `moved` says of two states that accepted puts
// lead from one to the other, and what a kind of store keeps besides that the lists do not show.
pub trait Store {
    ghost blocks: { Self → List (List ℕ) };

    ghost marks: { Self → List Mark };

    ghost moved: { Self → Self → Type 0 };

    ghost laws: { Laws blocks marks moved };

    // How many blocks there are.
    fn count(&self) -> usize
        ensures { result ≡ length (blocks self.now) };

    // Whether there is a block n and it is live.
    fn live(&self, n: usize) -> bool
        ensures { result ≡ is_ok (asked (marks self.now) n) };

    // Fills the buffer with block n; a refusal leaves the buffer as it was.
    fn fetch(&self, n: usize, buffer: &mut Block) -> Result<(), Fault>
        ensures { Fetched (blocks self.now) (marks self.now) n buffer.old buffer.new result };

    // Makes block n equal to the contents; a refusal leaves the store as it was.
    fn put(&mut self, n: usize, contents: &Block) -> Result<(), Fault>
        ensures { Placed blocks marks moved n contents.now self.old self.new result };
}
