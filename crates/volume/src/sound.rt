// A volume that was found sound.
ghost use Rattle.std.specs.Prelude.{◌≡◌, None, Ok, Err, MatchResult, IfOk};
ghost use Rattle.std.proofs.Props.{props};
ghost use Rattle.volume.specs.Openings.{Loaded, open_answer};
ghost use Rattle.volume.specs.Soundness.{first_broken};

use crate::check::inspect;
use crate::loaded::Volume;
use faults::Fault;
use store::interface::Store;
use store::liveness::{Live, all_live};

// It breaks no rule, and comes with what was read to find that out.
#[derive(Drop)]
pub struct SoundVolume<'a, S: Store> {
    pub live: Live<'a, S>,
    pub read: Volume,
    pub ghost sound: { first_broken (S.Store.blocks live.store.now) ≡ None } by { Prim.hlevel props },
    pub ghost loaded: { Loaded (S.Store.blocks live.store.now) read } by { Prim.hlevel props },
}

// Questions 2 and 17, as every call on files asks them.
pub fn open<S: Store>(store: &S) -> Result<SoundVolume<'_, S>, Fault>
    ensures answer { MatchResult result (λ _. open_answer (S.Store.blocks store.now) (S.Store.marks store.now) ≡ Ok tt) (λ fault. open_answer (S.Store.blocks store.now) (S.Store.marks store.now) ≡ Err fault) }
    ensures same { IfOk result (λ volume. volume.live.store ≡ store.entry) }
{
    all_live(store)?;
    let live = Live { store };
    let read = inspect(&live)?;
    Ok(SoundVolume { live, read })
}
