// What four keys show of four covers, and a put under one of them.
use crate::trial::{Trial, agrees};
use std::io;
use store::image::Image;
use store::interface::Store;
use tally::Tally;
use wallet::wallet::Wallet;

pub fn all(rt: &HostRuntime, tally: &mut Tally) -> io::Result<()> {
    let mut memory = [0; 8192];
    memory[0] = 0x10;
    memory[2048] = 0x22;
    memory[4096] = 0x35;
    memory[6144] = 0x4f;
    let wallet = Wallet::new(Image::new(&mut memory));
    let mut trial = Trial { tally, wallet };
    trial.work();
    drop(trial);
    for (place, byte) in [(0, 0x56), (2048, 0x64), (4096, 0x73), (6144, 0x4f)] {
        tally.expect("a cover's first byte", memory[place], byte);
    }
    tally.report(rt, "four covers worked by hand")?;
    Ok(())
}

impl<S: Store> Trial<'_, S> {
    // What the keys show, then 0x41 put under the first of them, and what they show then.
    fn work(&mut self) {
        self.lay_out_four();
        self.show([0x07, 0x58, 0x7d, 0x6a]);
        let mut contents = [0; 512];
        contents[0] = 0x41;
        agrees(
            self.tally,
            "put",
            self.wallet.level_put(0, 0, &contents),
            Ok(()),
        );
        self.show([0x41, 0x58, 0x7d, 0x6a]);
    }

    fn show(&mut self, bytes: [u8; 4]) {
        for (level, byte) in bytes.into_iter().enumerate() {
            let mut buffer = [0; 512];
            agrees(
                self.tally,
                "fetch",
                self.wallet.level_fetch(level, 0, &mut buffer),
                Ok(()),
            );
            self.tally.expect("a level's first byte", buffer[0], byte);
        }
    }
}
