// The blocks of a plain store that have been condemned, in the order in which they were.
ghost use Rattle.std.specs.Prelude.{◌≡◌, ◌<◌, true, [], is_ok};
ghost use Rattle.store.specs.Condemned.{Condemns, listed, holds, marked};
ghost use Rattle.store.specs.Stores.{asked};

use arrayvec::ArrayVec;
use faults::{Fault, Question};

// A plain store has at most eight condemned blocks.
const MAX_CONDEMNED: usize = 8;

#[derive(Drop)]
pub(crate) struct Condemned {
    numbers: ArrayVec<usize, MAX_CONDEMNED>,
}

impl Condemned {
    pub(crate) fn none() -> Condemned
        ensures { listed result ≡ [] }
    {
        Condemned {
            numbers: ArrayVec::new(),
        }
    }

    // Asked first whether there are any: where there are none, a compiler then finds that asking every block of a store asks nothing.
    fn holds(&self, n: usize) -> bool
        ensures { result ≡ holds n (listed self.now) }
    {
        !self.numbers.is_empty() && self.numbers.iter().any(|condemned| *condemned == n)
    }

    // Questions 1 and 2 of block n, in a plain store of `total` blocks.
    pub(crate) fn ask(&self, n: usize, total: usize) -> Result<(), Fault>
        ensures answer { result ≡ asked (marked (listed self.now) total) n }
        ensures within { is_ok result ≡ true → n < total }
    {
        if n >= total {
            return Err(Fault::past_count(n));
        }
        if self.holds(n) {
            return Err(Fault::dead_block(n));
        }
        Ok(())
    }

    // Condemns block n of a plain store of `total` blocks. One that is condemned already stays so, and is not counted again.
    pub(crate) fn condemn(&mut self, n: usize, total: usize) -> Result<(), Fault>
        ensures { Condemns total n (listed self.old) (listed self.new) result }
    {
        if n >= total {
            return Err(Fault::past_count(n));
        }
        if self.holds(n) {
            return Ok(());
        }
        if self.numbers.is_full() {
            return Err(Fault::from(Question::RoomToCondemn));
        }
        self.numbers.push(n);
        Ok(())
    }
}
