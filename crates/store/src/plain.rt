// A plain store: the whole blocks of a memory, some of them condemned.
ghost use Rattle.std.specs.Prelude.{◌≡◌, ◌<◌, true, [], length, is_ok};
ghost use Rattle.store.specs.Condemned.{Condemns};
ghost use Rattle.store.specs.Plain.{whole_blocks, plain_bytes, plain_condemned, shown_blocks, shown_marks, PlainMoved, plain_laws};
ghost use Rattle.store.specs.Stores.{asked};

use crate::condemned::Condemned;
use crate::interface::{BLOCK_SIZE, Block, MAX_BLOCKS, Store};
use crate::memory::Memory;
use faults::Fault;

// How many blocks a memory of that length shows. The bytes past them are never touched.
pub fn whole_blocks(len: usize) -> usize
    ensures { result ≡ whole_blocks len }
{
    (len / BLOCK_SIZE).min(MAX_BLOCKS)
}

#[derive(Drop)]
pub struct Plain<M> {
    memory: M,
    condemned: Condemned,
}

impl<M: Memory> Plain<M> {
    // A store over the memory, every block live.
    pub(crate) fn over(memory: M) -> Plain<M>
        ensures memory { result.memory ≡ memory }
        ensures condemned { plain_condemned result ≡ [] }
    {
        Plain {
            memory,
            condemned: Condemned::none(),
        }
    }

    // Marks block n dead. It is made before the store enters a pile of stores.
    pub fn condemn(&mut self, n: usize) -> Result<(), Fault>
        ensures condemns { Condemns (whole_blocks (length (plain_bytes M.items self.old))) n (plain_condemned self.old) (plain_condemned self.new) result }
        ensures memory { self.new.memory ≡ self.old.memory }
    {
        let total = whole_blocks(self.memory.as_slice().len());
        self.condemned.condemn(n, total)
    }

    // Questions 1 and 2 of block n.
    fn ask(&self, n: usize) -> Result<(), Fault>
        ensures answer { result ≡ asked (shown_marks M.items self.now) n }
        ensures within { is_ok result ≡ true → n < whole_blocks (length (plain_bytes M.items self.now)) }
    {
        self.condemned.ask(n, self.count())
    }
}

impl<M: Memory> Store for Plain<M> {
    ghost blocks = { shown_blocks M.items };

    ghost marks = { shown_marks M.items };

    ghost moved = { PlainMoved M.items M.reference };

    ghost laws = { plain_laws M.items M.reference };

    fn count(&self) -> usize {
        whole_blocks(self.memory.as_slice().len())
    }

    fn live(&self, n: usize) -> bool {
        self.ask(n).is_ok()
    }

    fn fetch(&self, n: usize, buffer: &mut Block) -> Result<(), Fault> {
        self.ask(n)?;
        let start = BLOCK_SIZE * n;
        buffer.copy_from_slice(&self.memory.as_slice()[start..start + BLOCK_SIZE]);
        Ok(())
    }

    fn put(&mut self, n: usize, contents: &Block) -> Result<(), Fault> {
        self.ask(n)?;
        self.memory.put_block(n, contents);
        Ok(())
    }
}
