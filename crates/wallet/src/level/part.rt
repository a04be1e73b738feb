// One block of one cover of a level: whether the cover is in the key, where the block lies, and its part in a fetch or a put.
ghost use Rattle.std.specs.Prelude.{◌≡◌, ◌<◌};

use super::Level;
use crate::exclusive_or::xor;
use faults::{Fault, Question};
use store::interface::{Block, Store};

// Block b of a cover.
#[derive(Clone, Copy, Drop)]
pub(super) struct Part {
    pub(super) level: Level,
    pub(super) cover: usize,
    pub(super) b: usize,
    ghost there: { cover < level.covers },
    ghost within: { b < level.blocks },
}

impl Part {
    ghost use Rattle.std.specs.Prelude.{◌&&◌, is_ok, if◌then◌else◌, slice_set};
    ghost use Rattle.wallet.specs.Levels.{xor_block};
    ghost use Rattle.wallet.specs.Parts.{in_key, place_of, block_of, answer_of};
    ghost use Rattle.wallet.specs.Standing.{placed_at};

    // Whether the cover is in the key.
    fn in_key(&self) -> bool
        ensures { result ≡ in_key self.now }
    {
        (self.level.key >> self.cover) % 2 == 1
    }

    // The store block that it is: the covers stand end to end.
    #[tactic(auto, unfolding(crate::specs::Places::place))]
    fn place(&self) -> usize
        ensures { result ≡ place_of self.now }
    {
        self.cover * self.level.blocks + self.b
    }

    // What the store block answered, with its place in the level. A block past the store's end is as little live as a dead one.
    fn placed(&self, answer: Result<(), Fault>) -> Result<(), Fault>
        ensures { result ≡ placed_at self.now.level.number self.now.cover self.now.b answer }
    {
        answer.map_err(|fault| Fault {
            question: Question::BlockLive,
            level: self.level.number,
            block: self.b,
            cover: self.cover,
            ..fault
        })
    }

    // Fetches the block, if its cover is in the key, and adds it to the sum.
    pub(super) fn add<S: Store>(
        &self,
        store: &S,
        block: &mut Block,
        sum: &mut Block,
    ) -> Result<(), Fault>
        ensures answer { result ≡ answer_of self.now (S.marks store.now) }
        ensures buffer { block.new ≡ (if in_key self.now && is_ok result then block_of self.now (S.blocks store.now) else block.old) }
        ensures sum { sum.new ≡ (if in_key self.now && is_ok result then xor_block sum.old (block_of self.now (S.blocks store.now)) else sum.old) }
    {
        if self.in_key() {
            self.placed(store.fetch(self.place(), block))?;
            *sum = xor(sum, block);
        }
        Ok(())
    }

    // Puts the block, if its cover is in the key: what it held with the change added.
    pub(super) fn change<S: Store>(
        &self,
        store: &mut S,
        held: &Block,
        change: &Block,
    ) -> Result<(), Fault>
        ensures answer { result ≡ answer_of self.now (S.marks store.old) }
        ensures after { S.blocks store.new ≡ (if in_key self.now && is_ok result then slice_set (S.blocks store.old) (place_of self.now) (xor_block held.now change.now) else S.blocks store.old) }
        ensures moves { S.moved store.old store.new }
    {
        if self.in_key() {
            self.placed(store.put(self.place(), &xor(held, change)))
        } else {
            Ok(())
        }
    }
}
