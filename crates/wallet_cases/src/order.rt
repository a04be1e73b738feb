// The order of the questions, what each refusal names, and the level left chosen.
use crate::trial::{Trial, agrees, no_block, no_level};
use faults::Fault;
use faults::Question::{
    CandidateBelowLimit, CoversLaidOut, EnoughLevels, EnoughPlaces, KeyOrthonormal, RemainderOdd,
};
use std::io;
use store::interface::Store;
use store::pocket::Pocket;
use tally::Tally;
use wallet::wallet::Wallet;

pub fn all(rt: &HostRuntime, tally: &mut Tally) -> io::Result<()> {
    let wallet = Wallet::new(Pocket::new());
    let mut trial = Trial { tally, wallet };
    trial.without_covers();
    trial.tally.report(rt, "a wallet without covers")?;
    trial.in_order();
    trial.tally.report(rt, "questions in their order")?;
    Ok(())
}

impl<S: Store> Trial<'_, S> {
    // Before covers are laid out no key may come, and no level stands.
    fn without_covers(&mut self) {
        for brought in [0, 7, 1 << 40] {
            self.tally
                .answers("add", self.wallet.add(brought), Err(CoversLaidOut));
            self.tally
                .answers("take", self.wallet.take(brought), Err(CoversLaidOut));
        }
        self.disclosures_without_keys();
        for level in [0, 1, 1 << 40] {
            agrees(
                self.tally,
                "choose",
                self.wallet.choose(level),
                no_level(level),
            );
            self.try_block(level, 99, no_level(level));
        }
        self.tally.expect("chosen", self.wallet.chosen(), None);
    }

    fn in_order(&mut self) {
        self.tally
            .answers("lay out", self.wallet.lay_out(4, 4), Ok(()));
        self.disclosures_without_keys();
        for (candidate, wanted) in [
            (3, Err(RemainderOdd)),
            (16, Err(CandidateBelowLimit)),
            (7, Ok(())),
            (9, Ok(())),
        ] {
            self.tally
                .answers("add", self.wallet.add(candidate), wanted);
        }
        self.tally
            .answers("take", self.wallet.take(9), Err(KeyOrthonormal));
        self.under_keys();
        self.disclosures();
    }

    // Of no levels none may be disclosed; none at all is accepted, and leaves the list.
    fn disclosures_without_keys(&mut self) {
        for (d, wanted) in [(0, Ok(())), (1, Err(EnoughLevels)), (3, Err(EnoughLevels))] {
            let mut list = [90; 2];
            self.tally
                .answers("disclose", self.wallet.disclose(d, &mut list), wanted);
            self.tally.expect("list", list, [90, 90]);
        }
    }

    // With two levels of four blocks: levels past the last, blocks past the last, and both; each with the level chosen afterwards.
    fn under_keys(&mut self) {
        for (level, b, wanted, after) in [
            (2, 0, no_level(2), None),
            (0, 0, Ok(()), Some(0)),
            (0, 3, Ok(()), Some(0)),
            (1, 4, no_block(1, 4), Some(1)),
            (1 << 40, 4, no_level(1 << 40), Some(1)),
            (0, 1 << 40, no_block(0, 1 << 40), Some(0)),
            (1, 3, Ok(()), Some(1)),
            (2, 4, no_level(2), Some(1)),
        ] {
            self.try_block(level, b, wanted);
            self.tally.expect("chosen", self.wallet.chosen(), after);
        }
        for (level, wanted) in [(0, Ok(())), (2, no_level(2))] {
            agrees(self.tally, "choose", self.wallet.choose(level), wanted);
            self.tally.expect("chosen", self.wallet.chosen(), Some(0));
        }
    }

    // Put and fetch of one block; a refused fetch leaves the buffer.
    fn try_block(&mut self, level: usize, b: usize, wanted: Result<(), Fault>) {
        agrees(
            self.tally,
            "put",
            self.wallet.level_put(level, b, &[0x5a; 512]),
            wanted,
        );
        let mut buffer = [0xee; 512];
        agrees(
            self.tally,
            "fetch",
            self.wallet.level_fetch(level, b, &mut buffer),
            wanted,
        );
        let byte = if wanted.is_ok() { 0x5a } else { 0xee };
        self.tally.expect("buffer", buffer[0], byte);
        self.tally.expect("buffer", buffer[511], byte);
    }

    // The keys that candidates 7 and 9 gave: 7 and 14.
    fn disclosures(&mut self) {
        for (d, wanted, after) in [
            (3, Err(EnoughLevels), [90; 3]),
            (1, Ok(()), [7, 90, 90]),
            (2, Ok(()), [7, 14, 90]),
        ] {
            let mut list = [90; 3];
            self.tally
                .answers("disclose", self.wallet.disclose(d, &mut list), wanted);
            self.tally.expect("list", list, after);
        }
        let mut short = [90];
        self.tally.answers(
            "disclose",
            self.wallet.disclose(2, &mut short),
            Err(EnoughPlaces),
        );
        self.tally.expect("list", short, [90]);
    }
}
