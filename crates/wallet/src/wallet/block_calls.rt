// Choosing a level, and fetch and put of its blocks.
ghost use Rattle.std.specs.Prelude.{◌≡◌, OnOk, OnErr};
ghost use Rattle.wallet.specs.Wallets as wallets;
ghost use Rattle.wallet.specs.Wallets.{meaning, not_standing, Opened, choosing, choose_call, fetch_call, put_call, Called, Sparing};

use super::Wallet;
use crate::level::Level;
use faults::{Fault, Question};
use store::interface::{Block, Store};

// No such level stands.
fn not_standing(level: usize) -> Fault
    ensures { result ≡ not_standing level }
{
    Fault {
        level,
        ..Fault::from(Question::LevelStanding)
    }
}

// A refusal of a call that named a level has that level.
fn named(answer: Result<(), Fault>, level: usize) -> Result<(), Fault>
    ensures { result ≡ wallets.named level answer }
{
    answer.map_err(|fault| Fault { level, ..fault })
}

impl<S: Store> Wallet<S> {
    // The level, which is then chosen, if it stands.
    fn open(&mut self, level: usize) -> Result<Level, Fault>
        ensures answer { Opened (meaning S.Store self.old) level result }
        ensures after { meaning S.Store self.new ≡ choosing level (meaning S.Store self.old) }
        ensures store { self.new.store ≡ self.old.store }
    {
        let opened = self
            .layout
            .as_ref()
            .and_then(|layout| layout.level(level))
            .ok_or(not_standing(level))?;
        self.chosen = Some(level);
        Ok(opened)
    }

    // Chooses a level.
    pub fn choose(&mut self, level: usize) -> Result<(), Fault>
        ensures { Called S.Store (λ w. choose_call w level) self.old self.new result }
    {
        self.open(level).map(|_| ())
    }

    // Fills the buffer with block b of a level.
    pub fn level_fetch(&mut self, level: usize, b: usize, buffer: &mut Block) -> Result<(), Fault>
        ensures answer { result ≡ (fetch_call (meaning S.Store self.old) level b buffer.old).0 }
        ensures buffer { buffer.new ≡ (fetch_call (meaning S.Store self.old) level b buffer.old).1 }
        ensures after { meaning S.Store self.new ≡ (fetch_call (meaning S.Store self.old) level b buffer.old).2 }
        ensures store { self.new.store ≡ self.old.store }
    {
        let opened = self.open(level)?;
        named(opened.fetch(&self.store, b, buffer), level)
    }

    // Makes block b of a level equal to the contents.
    pub fn level_put(&mut self, level: usize, b: usize, contents: &Block) -> Result<(), Fault>
        ensures answer { result ≡ (put_call (meaning S.Store self.old) level b contents.now).0 }
        ensures after { meaning S.Store self.new ≡ (put_call (meaning S.Store self.old) level b contents.now).1 }
        ensures moves { S.moved self.old.store self.new.store }
        ensures refused { OnErr result (self.new.store ≡ self.old.store) }
        ensures spares { OnOk result (Sparing (meaning S.Store self.old) (meaning S.Store self.new) level b contents.now) }
    {
        let opened = self.open(level)?;
        named(opened.put(&mut self.store, b, contents), level)
    }
}
