// Volumes filled up: every inode, every entry of a directory, every block.
use allotment::format::format;
use faults::Question::{self, EnoughFreeBlocks, EntryFree, InodeFree, NameAbsent};
use store::image::Image;
use store::interface::Store;
use tally::Tally;
use volume::check::check;
use writing::create::create;
use writing::remove::remove;
use writing::write::write;

// A different name of four bytes for each number below 1,000.
fn name_of(n: usize) -> [u8; 4] {
    let digit = |n: usize| b'0' + (n % 10) as u8;
    [b'f', digit(n / 100), digit(n / 10), digit(n)]
}

// Creates so many files, each accepted; then one more is refused by that question.
fn create_until<S: Store>(tally: &mut Tally, store: &mut S, files: usize, question: Question) {
    for n in 0..files {
        tally.answers("one file more", create(store, &name_of(n)), Ok(()));
    }
    tally.answers(
        "one too many",
        create(store, &name_of(files)),
        Err(question),
    );
    tally.expect("sound", check(store), Ok(None));
}

// Sixteen inodes, one of them the root's.
fn every_inode(rt: &HostRuntime, tally: &mut Tally) -> anyhow::Result<()> {
    let mut memory = vec![in rt.alloc(); 0u8; 5120]?;
    let mut image = Image::new(memory.as_mut_slice());
    tally.answers("format", format(&mut image, 1), Ok(()));
    create_until(tally, &mut image, 15, InodeFree);
    tally.answers(
        "a name that is there",
        create(&mut image, &name_of(3)),
        Err(NameAbsent),
    );
    tally.answers("remove", remove(&mut image, &name_of(3)), Ok(()));
    tally.answers("create again", create(&mut image, &name_of(77)), Ok(()));
    tally.answers(
        "one too many again",
        create(&mut image, &name_of(78)),
        Err(InodeFree),
    );
    Ok(())
}

// One data block, which holds 32 entries: a thirty-third would need another.
fn every_block(rt: &HostRuntime, tally: &mut Tally) -> anyhow::Result<()> {
    let mut memory = vec![in rt.alloc(); 0u8; 3072]?;
    let mut image = Image::new(memory.as_mut_slice());
    tally.answers("format", format(&mut image, 3), Ok(()));
    create_until(tally, &mut image, 30, EnoughFreeBlocks);
    tally.answers("remove", remove(&mut image, &name_of(0)), Ok(()));
    tally.answers("the empty entry", create(&mut image, &name_of(77)), Ok(()));
    Ok(())
}

// 256 entries, the first two of them the directory's own. Then all blocks are used up, which is asked for last.
fn every_entry(rt: &HostRuntime, tally: &mut Tally) -> anyhow::Result<()> {
    let mut memory = vec![in rt.alloc(); 0u8; 51_200]?;
    let mut image = Image::new(memory.as_mut_slice());
    tally.answers("format", format(&mut image, 17), Ok(()));
    create_until(tally, &mut image, 254, EntryFree);
    let bytes = [7; 4096];
    for n in 0..9 {
        tally.answers(
            "eight blocks",
            write(&mut image, &name_of(n), &bytes),
            Ok(()),
        );
    }
    tally.answers(
        "the last block",
        write(&mut image, &name_of(9), &bytes[..512]),
        Ok(()),
    );
    tally.answers(
        "no block",
        write(&mut image, &name_of(10), &bytes[..1]),
        Err(EnoughFreeBlocks),
    );
    tally.answers(
        "no entry",
        create(&mut image, &name_of(300)),
        Err(EntryFree),
    );
    Ok(())
}

pub fn all(rt: &HostRuntime, tally: &mut Tally) -> anyhow::Result<()> {
    every_inode(rt, tally)?;
    tally.report(rt, "every inode used")?;
    every_block(rt, tally)?;
    tally.report(rt, "every block used")?;
    every_entry(rt, tally)?;
    tally.report(rt, "every entry used")?;
    Ok(())
}
