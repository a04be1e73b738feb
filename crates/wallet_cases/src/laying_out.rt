// Laying out covers: how many of how many blocks, over stores of how many.
use crate::trial::Trial;
use faults::Question::{CoversWithinLimits, EnoughStoreBlocks, NoCoversYet};
use store::image::Image;
use store::interface::Store;
use tally::{Outcome, Tally};
use wallet::wallet::Wallet;

pub fn all(rt: &HostRuntime, tally: &mut Tally) -> anyhow::Result<()> {
    let mut memory = vec![in rt.alloc(); 0u8; 1_638_400]?;
    for (blocks, k, n, wanted) in CASES {
        let len = blocks.saturating_mul(512).min(memory.len());
        let wallet = Wallet::new(Image::new(&mut memory[..len]));
        Trial { tally, wallet }.lay_out_twice(k, n, wanted);
    }
    tally.report(rt, "laying out")?;
    Ok(())
}

// Blocks of the store, covers, blocks of a cover, and how it goes: tuples, so that each row stands on one line.
const CASES: [(usize, usize, usize, Outcome); 19] = [
    (3199, 32, 100, Err(EnoughStoreBlocks)),
    (3200, 32, 100, Ok(())),
    (3199, 31, 100, Ok(())),
    (7, 2, 4, Err(EnoughStoreBlocks)),
    (8, 2, 4, Ok(())),
    (199, 2, 100, Err(EnoughStoreBlocks)),
    (200, 2, 100, Ok(())),
    (127, 32, 4, Err(EnoughStoreBlocks)),
    (128, 32, 4, Ok(())),
    (0, 2, 4, Err(EnoughStoreBlocks)),
    (3200, 1, 4, Err(CoversWithinLimits)),
    (3200, 33, 4, Err(CoversWithinLimits)),
    (3200, 2, 3, Err(CoversWithinLimits)),
    (3200, 2, 101, Err(CoversWithinLimits)),
    (3200, 0, 0, Err(CoversWithinLimits)),
    (3200, 1 << 40, 4, Err(CoversWithinLimits)),
    (3200, 2, 1 << 40, Err(CoversWithinLimits)),
    (3200, 4, 33, Ok(())),
    (0, 1, 4, Err(CoversWithinLimits)),
];

impl<S: Store> Trial<'_, S> {
    // Lays out once, and once more: covers that lie are there whatever is asked next.
    fn lay_out_twice(&mut self, k: usize, n: usize, wanted: Outcome) {
        self.tally
            .answers("lay out", self.wallet.lay_out(k, n), wanted);
        let again = if wanted.is_ok() {
            NoCoversYet
        } else {
            CoversWithinLimits
        };
        self.tally
            .answers("lay out", self.wallet.lay_out(0, 0), Err(again));
    }
}
