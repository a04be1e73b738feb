// A text laid into a store block by block, past what is dead, and read back.
ghost use Rattle.std.specs.Prelude.{◌≡◌, false, is_ok, IfOk};
ghost use Rattle.zobintal.specs.Filing.{Laid, gathered};

use anyhow::anyhow;
use std::alloc::Global;
use store::interface::{BLOCK_SIZE, Block, Store};
use store::padding::padded;

// Puts the contents into the first block from `from` on that takes them, showing each refusal, and answers its number.
pub fn lay_block<S: Store>(
    rt: &impl Print,
    store: &mut S,
    from: usize,
    contents: &Block,
) -> anyhow::Result<usize>
    ensures laid { IfOk result (Laid (S.Store.marks store.old) (S.Store.blocks store.old) (S.Store.blocks store.new) from contents.now) }
    ensures refused { is_ok result ≡ false → store.new ≡ store.old }
{
    for n in from..store.count() {
        match store.put(n, contents) {
            Ok(()) => return Ok(n),
            Err(fault) => println!(rt; "  {fault}; going on to the next")?,
        }
    }
    Err(anyhow!("the store is full"))
}

// The text laid from block 0 on: which blocks hold it, in order.
pub fn lay<S: Store>(
    rt: &(impl Print + AllocGlobal),
    store: &mut S,
    text: &[u8],
) -> anyhow::Result<Vec<usize>> {
    let mut places = Vec::new(rt.alloc());
    let mut next = 0usize;
    for part in text.chunks(BLOCK_SIZE) {
        let n = lay_block(rt, store, next, &padded(part))?;
        let len = part.len();
        println!(rt; "  {len} bytes into block {n}")?;
        places.push(n)?;
        next = n.saturating_add(1);
    }
    Ok(places)
}

// The blocks at the places, one after the other.
pub fn read_back<S: Store>(alloc: Global, store: &S, places: &[usize]) -> anyhow::Result<Vec<u8>>
    ensures { IfOk result (λ bytes. bytes.items ≡ gathered (S.Store.blocks store.now) places.now) }
{
    let mut bytes = Vec::new(alloc);
    let mut block = [0; 512];
    for n in places {
        store.fetch(*n, &mut block)?;
        bytes.extend_from_slice(&block)?;
    }
    Ok(bytes)
}
