// What a key table tells, and the disclosing of keys.
ghost use Rattle.std.specs.Prelude.{◌≡◌, ◌≤◌, length};
ghost use Rattle.keys.specs.Calls.{disclose_call, key_of};
ghost use Rattle.keys.specs.Keys.{Sound};
ghost use Rattle.keys.specs.Tables.{standing, covers_of};

use super::KeyTable;
use faults::{Fault, Question};

impl KeyTable {
    // The keys in the order of their levels.
    pub(super) fn standing(&self) -> &[u64]
        ensures { result.now ≡ standing self.now }
    {
        &self.keys[..self.count]
    }

    // How many levels stand.
    pub fn count(&self) -> usize
        ensures answer { result ≡ length (standing self.now) }
        ensures sound { Sound (covers_of self.now) (standing self.now) }
    {
        self.standing().len()
    }

    pub fn covers(&self) -> usize
        ensures answer { result ≡ covers_of self.now }
        ensures within { (2 ≤ result) × (result ≤ 32) }
    {
        self.covers
    }

    // The key of a level, where that level stands.
    pub fn key(&self, level: usize) -> Option<u64>
        ensures { result ≡ key_of (standing self.now) level }
    {
        if level < self.count {
            Some(self.keys[level])
        } else {
            None
        }
    }

    // Writes the keys of the first d levels into the first d places of a list, and answers d.
    pub fn disclose(&self, d: usize, list: &mut [u64]) -> Result<usize, Fault>
        ensures answer { result ≡ (disclose_call d (standing self.now) list.old).0 }
        ensures places { list.new ≡ (disclose_call d (standing self.now) list.old).1 }
    {
        if d > self.count {
            return Err(Fault::from(Question::EnoughLevels));
        }
        if d > list.len() {
            return Err(Fault::from(Question::EnoughPlaces));
        }
        list[..d].copy_from_slice(&self.keys[..d]);
        Ok(d)
    }
}
