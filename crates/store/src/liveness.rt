// Whether a whole store is live, as the calls that work on all of it ask.
ghost use Rattle.std.specs.Prelude.{◌≡◌, ◌<◌, true, [], length, is_ok, slice_index_or, slice_set, List, ℕ};
ghost use Rattle.std.specs.Fn.{FnOnceReturnsAtMut};
ghost use Rattle.store.specs.Lives.{Leads};
ghost use Rattle.store.specs.Stores.{all_live};

use crate::interface::{Block, Store};
use faults::Fault;

// Question 2 of every block. The refusal is the store's own, of its lowest dead block, so that the level and the cover come with it.
// A loop and no `find`: where nothing is condemned the loop is compiled to nothing, and `find` asks each block.
pub fn all_live<S: Store>(store: &S) -> Result<(), Fault>
    ensures { result ≡ all_live (S.Store.marks store.now) }
{
    for n in 0..store.count() {
        if !store.live(n) {
            return store.fetch(n, &mut [0; 512]);
        }
    }
    Ok(())
}

// A store every block of which is live, so that no fetch of a block that there is can be refused.
#[derive(Drop)]
pub struct Live<'a, S: Store> {
    pub store: &'a S,
    ghost live: { is_ok (all_live (S.Store.marks store.now)) ≡ true },
}

impl<'a, S: Store> Live<'a, S> {
    // Block n.
    pub fn load(&self, n: usize) -> Block
        requires { n < length (S.Store.blocks self.now.store.now) }
        ensures { result ≡ slice_index_or (S.Store.blocks self.now.store.now) n [] }
    {
        let mut block = [0; 512];
        self.store.fetch(n, &mut block).unwrap();
        block
    }
}

// The same of a store that may be changed: it stays live, as puts change no mark.
#[derive(Drop)]
pub struct LiveMut<'a, S: Store> {
    pub store: &'a mut S,
    ghost live: { is_ok (all_live (S.Store.marks store.now)) ≡ true },
}

impl<'a, S: Store> LiveMut<'a, S> {
    // Makes block n equal to the contents.
    pub fn put(&mut self, n: usize, contents: &Block)
        requires { n < length (S.Store.blocks self.old.store.now) }
        ensures { Leads S.Store.blocks S.Store.moved (slice_set (S.Store.blocks self.old.store.now) n contents.now) self.old.store self.new.store }
    {
        self.store.put(n, contents).unwrap()
    }

    // Makes of block n what the change makes of its contents.
    pub fn change<F: FnOnce(&mut Block)>(&mut self, n: usize, change: F)
        requires within { n < length (S.Store.blocks self.old.store.now) }
        requires callable { F.IsAlwaysCallable change }
        ensures { (contents : List ℕ) × FnOnceReturnsAtMut F.FnOnce change (slice_index_or (S.Store.blocks self.old.store.now) n []) tt contents × Leads S.Store.blocks S.Store.moved (slice_set (S.Store.blocks self.old.store.now) n contents) self.old.store self.new.store }
    {
        let mut block = Live {
            store: &*self.store,
        }
        .load(n);
        change(&mut block);
        self.put(n, &block);
    }
}
