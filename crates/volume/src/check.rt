// Whether the volume in a store is sound.
ghost use Rattle.std.specs.Prelude.{◌≡◌, None, Ok};
ghost use Rattle.volume.specs.SoundVolumes.{SoundVolume};
ghost use Rattle.volume.specs.Soundness.{first_broken, check_call};
ghost use Rattle.volume.specs.Openings.{Inspected, Opened};

use crate::framed::Framed;
use crate::loaded::Volume;
use crate::rule::Rule;
use crate::rules::{MAX_VOLUME, free_list_is_good, sizes_are_good};
use crate::sound;
use faults::Fault;
use store::interface::Store;
use store::liveness::{Live, all_live};

// All rules in order: the first that is broken, or the volume. A store of fewer than 4 or more than 100 blocks breaks the first, and
// nothing of it is read.
pub(crate) fn inspect<S: Store>(live: &Live<'_, S>) -> Result<Volume, Rule>
    ensures { Inspected (S.Store.blocks live.now.store.now) (first_broken (S.Store.blocks live.now.store.now)) result }
{
    let count = live.store.count();
    if !(4..=MAX_VOLUME).contains(&count) {
        return Err(Rule::Sizes);
    }
    let superblock = live.load(1);
    if !sizes_are_good(&superblock, count) {
        return Err(Rule::Sizes);
    }
    if !free_list_is_good(&superblock, count) {
        return Err(Rule::FreeList);
    }
    Framed { live, superblock }.inspect_inodes()
}

// Question 2 of every block, then the first broken rule, or none where the volume is sound.
pub fn check<S: Store>(store: &S) -> Result<Option<Rule>, Fault>
    ensures sound { result ≡ Ok None → SoundVolume (S.Store.blocks store.now) }
    ensures answer { result ≡ check_call (S.Store.blocks store.now) (S.Store.marks store.now) }
{
    all_live(store)?;
    let live = Live { store };
    Ok(inspect(&live).err())
}

// Questions 2 and 17, with what was read to answer them. It holds no store, so that the store may be changed beside it.
pub fn open<S: Store>(store: &S) -> Result<Volume, Fault>
    ensures { Opened (S.Store.blocks store.now) (S.Store.marks store.now) result }
{
    Ok(sound::open(store)?.read)
}
