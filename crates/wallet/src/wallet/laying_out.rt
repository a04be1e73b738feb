// The making of a wallet, what it tells of itself, and the laying out of its covers.
ghost use Rattle.std.specs.Prelude.{◌≡◌, [], None};
ghost use Rattle.wallet.specs.Wallets.{no_covers, covers_in, keys_in, lay_out_call, Called};

use super::Wallet;
use crate::layout::Layout;
use faults::{Fault, Question};
use store::interface::Store;

impl<S: Store> Wallet<S> {
    // A wallet without covers or keys.
    pub fn new(store: S) -> Wallet<S>
        ensures store { result.store ≡ store }
        ensures covers { covers_in result.layout ≡ no_covers }
        ensures keys { keys_in result.layout ≡ [] }
        ensures chosen { result.chosen ≡ None }
    {
        Wallet {
            store,
            layout: None,
            chosen: None,
        }
    }

    // The store, as the wallet's puts have left it.
    pub fn into_store(self) -> S
        ensures { result ≡ self.store }
    {
        self.store
    }

    // The level that was chosen last, if any was.
    pub fn chosen(&self) -> Option<usize>
        ensures { result ≡ self.now.chosen }
    {
        self.chosen
    }

    // Lays out k covers of n blocks each.
    pub fn lay_out(&mut self, k: usize, n: usize) -> Result<(), Fault>
        ensures { Called S.Store (λ w. lay_out_call w k n) self.old self.new result }
    {
        if self.layout.is_some() {
            return Err(Fault::from(Question::NoCoversYet));
        }
        let layout = Layout::new(k, n)?;
        if self.store.count() < layout.total() {
            return Err(Fault::from(Question::EnoughStoreBlocks));
        }
        self.layout = Some(layout);
        Ok(())
    }
}
