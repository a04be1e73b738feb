// Fetch and put of a level's blocks.
ghost use Rattle.std.specs.Prelude.{◌≡◌, ◌<◌, true, [], is_ok, if◌then◌else◌, OnOk, OnErr, length, slice_index_or, slice_set};
ghost use Rattle.store.specs.Stores.{asked, Fetched};
ghost use Rattle.wallet.specs.Levels.{xor_block};
ghost use Rattle.wallet.specs.Standing.{level_blocks, level_marks_of, level_filled, Holds, spread, Spares};

use super::Level;
use super::part::Part;
use faults::Fault;
use store::interface::{Block, Store};

impl Level {
    // Fills the buffer with the sum of block b over the covers in the key. The first cover that refuses is the lowest dead one.
    // It is not `gather`, since it holds one cover's block at a time and not all 32.
    pub(crate) fn fetch<S: Store>(
        &self,
        store: &S,
        b: usize,
        buffer: &mut Block,
    ) -> Result<(), Fault>
        ensures { Fetched (level_blocks self.now (S.blocks store.now)) (level_marks_of self.now (S.marks store.now)) b buffer.old buffer.new result }
    {
        if b >= self.blocks {
            return Err(Fault::past_count(b));
        }
        let mut sum = [0; 512];
        let mut block = [0; 512];
        let level = *self;
        // A cover is handed on, and indexes nothing here.
        for cover in 0..self.covers {
            let part = Part { level, cover, b };
            part.add(store, &mut block, &mut sum)?;
        }
        *buffer = sum;
        Ok(())
    }

    // Fetches block b of every cover in the key into its place, and adds each to the sum.
    fn gather<S: Store>(
        &self,
        store: &S,
        b: usize,
        held: &mut [Block],
        sum: &mut Block,
    ) -> Result<(), Fault>
        requires within { b < self.now.blocks }
        requires places { length held.old ≡ self.now.covers }
        ensures answer { result ≡ asked (level_marks_of self.now (S.marks store.now)) b }
        ensures held { OnOk result (Holds self.now (S.blocks store.now) b held.new) }
        ensures sum { OnOk result (sum.new ≡ xor_block sum.old (slice_index_or (level_blocks self.now (S.blocks store.now)) b [])) }
    {
        let level = *self;
        for (cover, block) in held.iter_mut().enumerate() {
            let part = Part { level, cover, b };
            part.add(store, block, sum)?;
        }
        Ok(())
    }

    // Puts block b of every cover in the key, with the change added. All of them are live, so that no put is refused.
    fn scatter<S: Store>(&self, store: &mut S, b: usize, held: &[Block], change: &Block)
        requires within { b < self.now.blocks }
        requires places { length held.now ≡ self.now.covers }
        requires live { is_ok (asked (level_marks_of self.now (S.marks store.old)) b) ≡ true }
        requires held { Holds self.now (S.blocks store.old) b held.now }
        ensures after { S.blocks store.new ≡ spread self.now b change.now (S.blocks store.old) }
        ensures moves { S.moved store.old store.new }
    {
        let level = *self;
        for (cover, block) in held.iter().enumerate() {
            let part = Part { level, cover, b };
            part.change(store, block, change).unwrap();
        }
    }

    // Makes block b of the level equal to the contents. Every cover in the key has been fetched, and so is live, before the first put.
    pub(crate) fn put<S: Store>(
        &self,
        store: &mut S,
        b: usize,
        contents: &Block,
    ) -> Result<(), Fault>
        ensures answer { result ≡ asked (level_marks_of self.now (S.marks store.old)) b }
        ensures after { S.blocks store.new ≡ (if is_ok result then level_filled self.now (slice_set (level_blocks self.now (S.blocks store.old)) b contents.now) (S.blocks store.old) else S.blocks store.old) }
        ensures moves { S.moved store.old store.new }
        ensures refused { OnErr result (store.new ≡ store.old) }
        ensures spares { OnOk result (Spares self.now b contents.now (S.blocks store.old) (S.blocks store.new)) }
    {
        if b >= self.blocks {
            return Err(Fault::past_count(b));
        }
        let mut held = [[0; 512]; 32];
        let held = &mut held[..self.covers];
        let mut change = *contents;
        self.gather(store, b, held, &mut change)?;
        self.scatter(store, b, held, &change);
        Ok(())
    }
}
