// Scripts of calls, each on a store of its own.
use crate::step::{Answer, Failure, Step};
use crate::tables;
use faults::Question;
use store::image::Image;
use tally::Tally;

// What is done, in words; the call; how it goes.
pub type Row = (&'static str, Step, Result<Answer, Question>);

// A script on an image of so many blocks, of which some may be condemned. The image is not zero to begin with.
fn script(
    rt: &HostRuntime,
    tally: &mut Tally,
    name: &str,
    blocks: usize,
    condemned: &[usize],
    rows: &[Row],
) -> anyhow::Result<()> {
    let mut memory = vec![in rt.alloc(); 0xddu8; blocks.saturating_mul(512)]?;
    let mut image = Image::new(memory.as_mut_slice());
    for n in condemned {
        image.condemn(*n)?;
    }
    for (name, step, wanted) in rows.iter().copied() {
        let came = step.on(rt.alloc(), &mut image);
        tally.expect(name, came, wanted.map_err(Failure::Refused));
    }
    tally.report(rt, name)?;
    Ok(())
}

// Volumes that are formatted and used.
fn used(rt: &HostRuntime, tally: &mut Tally) -> anyhow::Result<()> {
    script(rt, tally, "a volume of ten blocks", 10, &[], &tables::TEN)?;
    script(rt, tally, "names", 10, &[], &tables::NAMES)?;
    script(rt, tally, "sizes of files", 100, &[], &tables::SIZES)?;
    script(rt, tally, "the smallest volume", 4, &[], &tables::FOUR)
}

// Calls that are refused, and which question refuses them.
fn refused(rt: &HostRuntime, tally: &mut Tally) -> anyhow::Result<()> {
    script(rt, tally, "formats refused", 10, &[], &tables::FORMATS)?;
    script(rt, tally, "the order of questions", 10, &[], &tables::ORDER)?;
    script(rt, tally, "a dead block", 10, &[9], &tables::DEAD)?;
    script(rt, tally, "a store too long", 101, &[], &tables::LONG)
}

pub fn all(rt: &HostRuntime, tally: &mut Tally) -> anyhow::Result<()> {
    used(rt, tally)?;
    refused(rt, tally)
}
