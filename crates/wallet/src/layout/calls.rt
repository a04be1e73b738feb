// The making of a layout, its size, and its levels.
ghost use Rattle.std.specs.Prelude.{◌≡◌, ◌*◌};
ghost use Rattle.wallet.specs.Wallets.{laid_covers, laid_keys, LaidOut, FoundIn};

use super::Layout;
use crate::level::Level;
use faults::{Fault, Question};
use keys::table::KeyTable;

const MIN_BLOCKS: usize = 4;

const MAX_BLOCKS: usize = 100;

impl Layout {
    // So many covers of so many blocks each, and no keys yet.
    pub(crate) fn new(covers: usize, blocks: usize) -> Result<Layout, Fault>
        ensures { LaidOut covers blocks result }
    {
        let keys = KeyTable::new(covers)?;
        if !(MIN_BLOCKS..=MAX_BLOCKS).contains(&blocks) {
            return Err(Fault::from(Question::CoversWithinLimits));
        }
        Ok(Layout { keys, blocks })
    }

    // How many blocks the covers have in all.
    pub(crate) fn total(&self) -> usize
        ensures { result ≡ (laid_covers self.now).count * (laid_covers self.now).blocks }
    {
        self.keys.covers() * self.blocks
    }

    // A level, where it stands.
    pub(crate) fn level(&self, number: usize) -> Option<Level>
        ensures { FoundIn (laid_covers self.now) (laid_keys self.now) number result }
    {
        let key = self.keys.key(number)?;
        Some(Level {
            number,
            key,
            covers: self.keys.covers(),
            blocks: self.blocks,
        })
    }
}
