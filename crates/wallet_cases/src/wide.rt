// A wide set of long covers: an edit of level 0 leaves every other level as it was.
use crate::trial::{Trial, agrees};
use store::image::Image;
use store::interface::Store;
use tally::Tally;
use wallet::wallet::Wallet;

// Thirty-two covers of a hundred blocks: byte places up to 1,638,399.
const LEN: usize = 1_638_400;

const LEVEL_LEN: usize = 51_200;

// Four groups of four covers, and in each the four keys that leave one cover out.
const GROUPS: [[u32; 4]; 4] = [
    [1, 20, 31, 0],
    [2, 3, 21, 30],
    [4, 12, 22, 29],
    [5, 13, 23, 28],
];

// The blocks of level 0 that are edited, and their new bytes.
const EDITS: [(usize, u8); 3] = [(0, 0x41), (57, 0), (99, 0xff)];

// The covers of level 0's key.
const COVERS: [usize; 3] = [1, 20, 31];

pub fn all(rt: &HostRuntime, tally: &mut Tally) -> anyhow::Result<()> {
    let mut memory = vec![in rt.alloc(); 0u8; LEN]?;
    fill(memory.as_mut_slice());
    let wallet = Wallet::new(Image::new(memory.as_mut_slice()));
    let mut trial = Trial { tally, wallet };
    trial.edit(rt)?;
    drop(trial);
    covers_after(tally, memory.as_slice());
    tally.report(rt, "a wide set of long covers")?;
    Ok(())
}

// What stands at a byte place at first.
fn noise(place: usize) -> u8 {
    (place % 251) as u8 ^ (place / 251 % 241) as u8
}

fn fill(memory: &mut [u8]) {
    for (place, byte) in memory.iter_mut().enumerate() {
        *byte = noise(place);
    }
}

fn bit(cover: u32) -> u64 {
    1u64.checked_shl(cover).unwrap_or(0)
}

// The keys of a group, each the sum of three of its covers.
fn keys_of(group: [u32; 4]) -> [u64; 4] {
    let [a, b, c, d] = group.map(bit);
    [a | b | c, b | c | d, a | b | d, a | c | d]
}

impl<S: Store> Trial<'_, S> {
    fn take_keys(&mut self) {
        self.tally
            .answers("lay out", self.wallet.lay_out(32, 100), Ok(()));
        for group in GROUPS {
            for key in keys_of(group) {
                self.tally.answers("take", self.wallet.take(key), Ok(()));
            }
        }
    }

    // All blocks of the sixteen levels, one after the other.
    fn levels(&mut self, rt: &HostRuntime) -> anyhow::Result<Vec<u8>> {
        let mut bytes = Vec::new(rt.alloc());
        let mut buffer = [0; 512];
        for level in 0..16 {
            for b in 0..100 {
                agrees(
                    self.tally,
                    "fetch",
                    self.wallet.level_fetch(level, b, &mut buffer),
                    Ok(()),
                );
                bytes.extend_from_slice(&buffer)?;
            }
        }
        Ok(bytes)
    }

    fn edit(&mut self, rt: &HostRuntime) -> anyhow::Result<()> {
        self.take_keys();
        let before = self.levels(rt)?;
        for (b, byte) in EDITS {
            agrees(
                self.tally,
                "put",
                self.wallet.level_put(0, b, &[byte; 512]),
                Ok(()),
            );
        }
        let after = self.levels(rt)?;
        compare(self.tally, before.as_slice(), after.as_slice());
        Ok(())
    }
}

// How many bytes differ from `from` on, up to `to`.
fn different(before: &[u8], after: &[u8], from: usize, to: usize) -> usize {
    let to = to.min(before.len()).min(after.len());
    let old = before.get(from..to).unwrap_or(&[]);
    let new = after.get(from..to).unwrap_or(&[]);
    old.iter().zip(new).filter(|(a, b)| a != b).count()
}

// Every other level is as it was; level 0 too but for the edited blocks, which have their new bytes.
fn compare(tally: &mut Tally, before: &[u8], after: &[u8]) {
    tally.expect("all levels", before.len(), 16 * LEVEL_LEN);
    tally.expect("all levels", after.len(), 16 * LEVEL_LEN);
    tally.expect("other levels", different(before, after, LEVEL_LEN, LEN), 0);
    tally.expect("level 0", different(before, after, 512, 57 * 512), 0);
    tally.expect("level 0", different(before, after, 58 * 512, 99 * 512), 0);
    for (b, byte) in EDITS {
        let block = after.chunks(512).nth(b);
        tally.expect("an edited block", block, Some([byte; 512].as_slice()));
    }
}

// Each cover of the key has old and new contents of the level added; cover 0, of its group but not in the key, is as it was.
fn covers_after(tally: &mut Tally, memory: &[u8]) {
    for (b, byte) in EDITS {
        for q in [0, 511] {
            covers_at(tally, memory, b * 512 + q, byte);
        }
    }
}

// The same at one byte place of the covers.
fn covers_at(tally: &mut Tally, memory: &[u8], at: usize, byte: u8) {
    let places = COVERS.map(|cover| cover.saturating_mul(LEVEL_LEN).saturating_add(at));
    let change = places.iter().fold(byte, |sum, place| sum ^ noise(*place));
    for place in places {
        let wanted = noise(place) ^ change;
        tally.expect("a cover's byte", memory.get(place).copied(), Some(wanted));
    }
    tally.expect("cover 0", memory.get(at).copied(), Some(noise(at)));
}
