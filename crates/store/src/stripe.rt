// A stripe of two stores: the blocks of its parts in turn.
ghost use Rattle.std.specs.Prelude.{◌≡◌, length};
ghost use Rattle.store.specs.Stripes.{LiesAt, stripe_blocks, stripe_marks, StripeMoved, stripe_laws};

use crate::interface::{Block, MAX_BLOCKS, Store};
use faults::Fault;

#[derive(Drop)]
pub struct Stripe<A, B> {
    first: A,
    second: B,
}

// Where a block of a stripe lies: in which part, and at which number there.
enum Place {
    First(usize),
    Second(usize),
}

impl<A: Store, B: Store> Stripe<A, B> {
    pub fn new(first: A, second: B) -> Stripe<A, B>
        ensures first { result.first ≡ first }
        ensures second { result.second ≡ second }
    {
        Stripe { first, second }
    }

    // The two parts, as the stripe's puts have left them.
    pub fn into_parts(self) -> (A, B)
        ensures first { result.0 ≡ self.first }
        ensures second { result.1 ≡ self.second }
    {
        let Stripe { first, second } = self;
        (first, second)
    }

    // Even blocks are the first part's, odd ones the second's.
    fn place(&self, n: usize) -> Result<Place, Fault>
        ensures { LiesAt (length (stripe_blocks A.Store.blocks B.Store.blocks self.now)) n result }
    {
        if n >= self.count() {
            return Err(Fault::past_count(n));
        }
        if n % 2 == 0 {
            Ok(Place::First(n / 2))
        } else {
            Ok(Place::Second(n / 2))
        }
    }
}

impl<A: Store, B: Store> Store for Stripe<A, B> {
    ghost blocks = { stripe_blocks A.Store.blocks B.Store.blocks };

    ghost marks = { stripe_marks A.Store.marks B.Store.marks };

    ghost moved = { StripeMoved A.Store.blocks B.Store.blocks A.Store.moved B.Store.moved };

    ghost laws = { stripe_laws A.Store.laws B.Store.laws };

    fn count(&self) -> usize {
        let smaller = self.first.count().min(self.second.count());
        (2 * smaller).min(MAX_BLOCKS)
    }

    fn live(&self, n: usize) -> bool {
        match self.place(n) {
            Ok(Place::First(k)) => self.first.live(k),
            Ok(Place::Second(k)) => self.second.live(k),
            Err(_) => false,
        }
    }

    fn fetch(&self, n: usize, buffer: &mut Block) -> Result<(), Fault> {
        match self.place(n)? {
            Place::First(k) => self.first.fetch(k, buffer),
            Place::Second(k) => self.second.fetch(k, buffer),
        }
        .map_err(|fault| fault.renumbered(n))
    }

    // Not one function with `fetch`: what that reads, this changes.
    fn put(&mut self, n: usize, contents: &Block) -> Result<(), Fault> {
        match self.place(n)? {
            Place::First(k) => self.first.put(k, contents),
            Place::Second(k) => self.second.put(k, contents),
        }
        .map_err(|fault| fault.renumbered(n))
    }
}
