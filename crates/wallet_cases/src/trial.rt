// A wallet on trial, and what its calls are to answer.
use faults::Fault;
use faults::Question::{BlockBelowCount, LevelStanding};
use store::interface::Store;
use tally::{Tally, outcome};
use wallet::wallet::Wallet;

// Four covers have these keys, of which each leaves one cover out.
const FOUR_KEYS: [u64; 4] = [7, 14, 11, 13];

#[derive(Drop)]
pub struct Trial<'a, S> {
    pub tally: &'a mut Tally,
    pub wallet: Wallet<S>,
}

// The refusal of a level that does not stand.
pub fn no_level(level: usize) -> Result<(), Fault> {
    Err(Fault {
        level,
        ..Fault::from(LevelStanding)
    })
}

// The refusal of a block that a level does not have.
pub fn no_block(level: usize, block: usize) -> Result<(), Fault> {
    Err(Fault {
        level,
        block,
        ..Fault::from(BlockBelowCount)
    })
}

// A call's answer, and every field of its refusal.
pub fn agrees(tally: &mut Tally, name: &str, answer: Result<(), Fault>, wanted: Result<(), Fault>) {
    tally.answers(name, answer, outcome(wanted));
    if let (Err(came), Err(wanted)) = (answer, wanted) {
        tally.expect(name, came.level, wanted.level);
        tally.expect(name, came.block, wanted.block);
        tally.expect(name, came.cover, wanted.cover);
        tally.expect(name, came.rule, wanted.rule);
    }
}

impl<S: Store> Trial<'_, S> {
    // Lays out four covers of four blocks, under four keys.
    pub fn lay_out_four(&mut self) {
        self.tally
            .answers("lay out", self.wallet.lay_out(4, 4), Ok(()));
        for key in FOUR_KEYS {
            self.tally.answers("take", self.wallet.take(key), Ok(()));
        }
    }
}
