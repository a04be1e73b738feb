// Dead blocks of covers: which levels they make dead, and which cover a refusal names.
use crate::trial::{Trial, agrees};
use faults::Fault;
use faults::Question::BlockLive;
use std::io;
use store::image::Image;
use store::interface::Store;
use tally::Tally;
use wallet::wallet::Wallet;

pub fn all(rt: &HostRuntime, tally: &mut Tally) -> io::Result<()> {
    for case in CASES {
        try_one(tally, case);
    }
    tally.report(rt, "dead blocks of covers")?;
    Ok(())
}

// Store blocks condemned, the dead cover that each level names of block 2, and the first byte of block 2 of each cover afterwards.
#[derive(Clone, Copy)]
struct Dead {
    condemned: [usize; 2],
    named: [Option<usize>; 4],
    covers: [u8; 4],
}

// The levels have the keys 7, 14, 11 and 13. Block 2 of cover 1 is store block 6, and level 3 alone does without that cover: it takes
// 0x5a over 0x11, so that 0x11 and 0x4b together are in covers 0, 2 and 3. With block 2 of cover 3 dead too, store block 14, no level is
// live there, and the lowest dead cover of the key is named.
const CASES: [Dead; 2] = [
    Dead {
        condemned: [6, 6],
        named: [Some(1), Some(1), Some(1), None],
        covers: [0x5a, 0x11, 0x5a, 0x5a],
    },
    Dead {
        condemned: [14, 6],
        named: [Some(1), Some(1), Some(1), Some(3)],
        covers: [0x11, 0x11, 0x11, 0x11],
    },
];

fn try_one(tally: &mut Tally, case: Dead) {
    let mut memory = [0x11; 8192];
    let mut image = Image::new(&mut memory);
    for n in case.condemned {
        tally.answers("condemn", image.condemn(n), Ok(()));
    }
    let wallet = Wallet::new(image);
    let mut trial = Trial { tally, wallet };
    trial.try_levels(case.named);
    drop(trial);
    for (cover, byte) in memory.chunks_exact(2048).zip(case.covers) {
        tally.expect("a cover's byte", cover[1024], byte);
        tally.expect("another block", cover[1536], 0x11);
    }
}

impl<S: Store> Trial<'_, S> {
    fn try_levels(&mut self, named: [Option<usize>; 4]) {
        self.lay_out_four();
        for (level, cover) in named.into_iter().enumerate() {
            self.try_level(level, cover);
        }
    }

    // A fetch and a put of block 2, refused where it names a dead cover, and a fetch of another; what is refused leaves the buffer.
    fn try_level(&mut self, level: usize, dead: Option<usize>) {
        let wanted = dead.map_or(Ok(()), |cover| {
            Err(Fault {
                level,
                block: 2,
                cover,
                ..Fault::from(BlockLive)
            })
        });
        let mut buffer = [0xee; 512];
        agrees(
            self.tally,
            "fetch",
            self.wallet.level_fetch(level, 2, &mut buffer),
            wanted,
        );
        let byte = if wanted.is_ok() { 0x11 } else { 0xee };
        self.tally.expect("buffer", buffer[511], byte);
        agrees(
            self.tally,
            "put",
            self.wallet.level_put(level, 2, &[0x5a; 512]),
            wanted,
        );
        agrees(
            self.tally,
            "fetch",
            self.wallet.level_fetch(level, 1, &mut buffer),
            Ok(()),
        );
    }
}
