// Volumes of other sizes, and dead blocks, which are asked for before any rule.
use crate::base::{Patch, patch, sound, zeros};
use faults::Fault;
use store::image::Image;
use tally::Tally;
use volume::check::check;
use volume::rule::Rule;

pub fn all(rt: &HostRuntime, tally: &mut Tally) -> anyhow::Result<()> {
    no_volumes(rt, tally)?;
    one_data_block(rt, tally, "four blocks", 4, 1, 3)?;
    longest(rt, tally)?;
    one_data_block(rt, tally, "97 blocks of inodes", 100, 97, 99)?;
    tally.report(rt, "volumes of other sizes")?;
    dead_blocks(rt, tally)?;
    tally.report(rt, "dead blocks")?;
    Ok(())
}

// Stores of too few and of too many blocks break the first rule.
fn no_volumes(rt: &HostRuntime, tally: &mut Tally) -> anyhow::Result<()> {
    for blocks in [0, 1, 2, 3, 101, 200] {
        let mut memory = zeros(rt.alloc(), blocks)?;
        let image = Image::new(memory.as_mut_slice());
        tally.expect("no volume", check(&image), Ok(Some(Rule::Sizes)));
    }
    Ok(())
}

// An empty directory of two entries, linked twice: inode 1, whose one block has that number.
fn empty_directory(memory: &mut [u8], address: u8) {
    let block = usize::from(address);
    patch(
        memory,
        &[
            (2, 0, 0xff),
            (2, 1, 0xc1),
            (2, 2, 2),
            (2, 6, 32),
            (2, 8, address),
        ],
    );
    patch(
        memory,
        &[
            (block, 0, 1),
            (block, 2, b'.'),
            (block, 16, 1),
            (block, 18, b'.'),
            (block, 19, b'.'),
        ],
    );
}

// A volume with one data block, which the directory takes: of so many blocks, all but three of inodes.
fn one_data_block(
    rt: &HostRuntime,
    tally: &mut Tally,
    name: &str,
    blocks: u8,
    isize: u8,
    address: u8,
) -> anyhow::Result<()> {
    let mut memory = zeros(rt.alloc(), usize::from(blocks))?;
    empty_directory(memory.as_mut_slice(), address);
    patch(
        memory.as_mut_slice(),
        &[(1, 0, isize), (1, 2, blocks), (1, 4, 1)],
    );
    let image = Image::new(memory.as_mut_slice());
    tally.expect(name, check(&image), Ok(None));
    Ok(())
}

// A hundred blocks with the shortest inode list, and all data blocks free but the directory's.
fn longest(rt: &HostRuntime, tally: &mut Tally) -> anyhow::Result<()> {
    let mut memory = zeros(rt.alloc(), 100)?;
    empty_directory(memory.as_mut_slice(), 3);
    patch(memory.as_mut_slice(), &[(1, 0, 1), (1, 2, 100), (1, 4, 97)]);
    for j in 1..97u8 {
        let place = 2 * usize::from(j) + 6;
        patch(memory.as_mut_slice(), &[(1, place, j + 3)]);
    }
    let image = Image::new(memory.as_mut_slice());
    tally.expect("a hundred blocks", check(&image), Ok(None));
    Ok(())
}

// The blocks condemned, the block that the refusal names, and what is changed besides.
static DEAD: [([usize; 2], usize, Patch); 6] = [
    ([0, 0], 0, (0, 0, 0)),
    ([9, 9], 9, (0, 0, 0)),
    ([7, 4], 4, (0, 0, 0)),
    ([2, 8], 2, (0, 0, 0)),
    // the volume breaks a rule too
    ([8, 8], 8, (1, 2, 11)),
    ([9, 1], 1, (4, 19, 0)),
];

fn dead_blocks(rt: &HostRuntime, tally: &mut Tally) -> anyhow::Result<()> {
    for (condemned, block, change) in DEAD.iter().copied() {
        let mut memory = sound(rt.alloc())?;
        patch(memory.as_mut_slice(), &[change]);
        let mut image = Image::new(memory.as_mut_slice());
        for n in condemned {
            tally.answers("condemning", image.condemn(n), Ok(()));
        }
        tally.expect("dead block", check(&image), Err(Fault::dead_block(block)));
    }
    Ok(())
}
