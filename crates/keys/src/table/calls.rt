// The making of a key table, and the calls that bring a key.
ghost use Rattle.std.specs.Prelude.{◌≡◌, ◌^◌, ◌<◌, [], ◌∷◌, ◌++◌, length, OnOk, OnErr};
ghost use Rattle.keys.specs.Calls.{max_levels, admitted, add_call, take_call, Leads, SaysFull, Remains};
ghost use Rattle.keys.specs.Keys.{Fits};
ghost use Rattle.keys.specs.Tables.{standing, covers_of, Made};

use super::KeyTable;
use crate::algebra::{fits, is_odd, key_sum, remainder};
use faults::{Fault, Question};

const MIN_COVERS: usize = 2;

const MAX_COVERS: usize = 32;

const MAX_LEVELS: usize = 16;

impl KeyTable {
    // No keys yet, over that many covers.
    pub fn new(covers: usize) -> Result<Self, Fault>
        ensures { Made covers result }
    {
        if !(MIN_COVERS..=MAX_COVERS).contains(&covers) {
            return Err(Fault::from(Question::CoversWithinLimits));
        }
        Ok(KeyTable {
            keys: [0; 16],
            count: 0,
            covers,
        })
    }

    // The least number that names a cover which is not there.
    fn limit(&self) -> u64
        ensures { result ≡ 2 ^ (covers_of self.now) }
    {
        1 << self.covers
    }

    // Question 9 turned round: whether no further key can fit.
    pub fn is_full(&self) -> bool
        ensures { SaysFull (covers_of self.now) (standing self.now) result }
    {
        key_sum(self.standing()) == self.limit() - 1
    }

    // What is left of a candidate once the standing keys are taken off that share an odd number of ones with it.
    pub fn remainder(&self, candidate: u64) -> u64
        ensures { Remains (standing self.now) candidate result }
    {
        remainder(self.standing(), candidate)
    }

    // Questions 8, 9 and 10, which adding and taking a key ask first.
    fn admit(&self, candidate: u64) -> Result<(), Fault>
        ensures answer { result ≡ admitted (covers_of self.now) (standing self.now) candidate }
        ensures room { OnOk result (length (standing self.now) < max_levels) }
        ensures below { OnOk result (candidate < 2 ^ (covers_of self.now)) }
    {
        if self.count >= MAX_LEVELS {
            return Err(Fault::from(Question::RoomForLevel));
        }
        if self.is_full() {
            return Err(Fault::from(Question::KeySumOpen));
        }
        if candidate >= self.limit() {
            return Err(Fault::from(Question::CandidateBelowLimit));
        }
        Ok(())
    }

    // Appends a key that is orthonormal to the standing ones, and answers its level.
    fn append(&mut self, key: u64) -> usize
        requires room { length (standing self.old) < max_levels }
        requires below { key < 2 ^ (covers_of self.old) }
        requires fits { Fits (standing self.old) key }
        ensures answer { result ≡ length (standing self.old) }
        ensures after { standing self.new ≡ standing self.old ++ key ∷ [] }
        ensures covers { covers_of self.new ≡ covers_of self.old }
    {
        let level = self.count;
        self.keys[level] = key;
        self.count = level + 1;
        level
    }

    // Appends the remainder of a candidate, if it is odd, and answers the new level.
    pub fn add(&mut self, candidate: u64) -> Result<usize, Fault>
        ensures leads { Leads (add_call (covers_of self.old) (standing self.old) candidate) (standing self.new) result }
        ensures covers { covers_of self.new ≡ covers_of self.old }
        ensures refused { OnErr result (self.new ≡ self.old) }
    {
        self.admit(candidate)?;
        let key = self.remainder(candidate);
        if !is_odd(key) {
            return Err(Fault::from(Question::RemainderOdd));
        }
        Ok(self.append(key))
    }

    // Appends a key as it is, if it is orthonormal to the standing ones, and answers the new level.
    pub fn take(&mut self, key: u64) -> Result<usize, Fault>
        ensures leads { Leads (take_call (covers_of self.old) (standing self.old) key) (standing self.new) result }
        ensures covers { covers_of self.new ≡ covers_of self.old }
        ensures refused { OnErr result (self.new ≡ self.old) }
    {
        self.admit(key)?;
        if !fits(self.standing(), key) {
            return Err(Fault::from(Question::KeyOrthonormal));
        }
        Ok(self.append(key))
    }
}
