// Blocks zeroed in a store that is live throughout.
ghost use Rattle.std.specs.Prelude.{◌-◌, ◌≤◌, length};
ghost use Rattle.store.specs.Lives.{Leads};
ghost use Rattle.allotment.specs.Records.{cleared};

use store::interface::Store;
use store::liveness::LiveMut;

// Zeroes the blocks from `low` to before `high`.
pub(crate) fn clear_blocks<S: Store>(live: &mut LiveMut<'_, S>, low: usize, high: usize)
    requires order { low ≤ high }
    requires within { high ≤ length (S.Store.blocks live.old.store.now) }
    ensures { Leads S.Store.blocks S.Store.moved (cleared (S.Store.blocks live.old.store.now) low (high - low)) live.old.store live.new.store }
{
    let zeros = [0; 512];
    for n in low..high {
        live.put(n, &zeros);
    }
}
