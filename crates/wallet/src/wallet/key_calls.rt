// The calls that bring a key, and the disclosing of keys.
ghost use Rattle.std.specs.Prelude.{◌≡◌};
ghost use Rattle.keys.specs.Calls.{add_call, take_call, disclose_call};
ghost use Rattle.wallet.specs.Matched.{MatchedCovers};
ghost use Rattle.wallet.specs.Wallets.{covers_in, keys_in, key_call, Called};

use super::Wallet;
use faults::{Fault, Question};
use store::interface::Store;

// Adding and taking are each one call on the key table. A function of both, with that call as a closure, would have a longer contract than the two.
impl<S: Store> Wallet<S> {
    // Adds a key from a candidate, and answers its level.
    pub fn add(&mut self, candidate: u64) -> Result<usize, Fault>
        ensures { Called S.Store (λ w. key_call add_call w candidate) self.old self.new result }
    {
        let layout = self.layout.as_mut().ok_or(Question::CoversLaidOut)?;
        layout.keys.add(candidate)
    }

    // Takes a key as it is, and answers its level.
    pub fn take(&mut self, key: u64) -> Result<usize, Fault>
        ensures { Called S.Store (λ w. key_call take_call w key) self.old self.new result }
    {
        let layout = self.layout.as_mut().ok_or(Question::CoversLaidOut)?;
        layout.keys.take(key)
    }

    // Writes the keys of the first d levels into the first d places of a list, and answers d. Whatever the other levels show,
    // the covers may show any other contents there: for any two the cover sets are matched.
    pub fn disclose(&self, d: usize, list: &mut [u64]) -> Result<usize, Fault>
        ensures answer { result ≡ (disclose_call d (keys_in self.now.layout) list.old).0 }
        ensures places { list.new ≡ (disclose_call d (keys_in self.now.layout) list.old).1 }
        ensures withheld { MatchedCovers (covers_in self.now.layout) d (keys_in self.now.layout) }
    {
        match &self.layout {
            Some(layout) => layout.keys.disclose(d, list),
            None if d > 0 => Err(Fault::from(Question::EnoughLevels)),
            None => Ok(0),
        }
    }
}
