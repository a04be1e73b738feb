// Volumes broken in one place, with the rule that they break, and in two, with the lower rule.
use crate::base::{Patch, patch, sound};
use store::image::Image;
use tally::Tally;
use volume::check::{check, open};
use volume::rule::Rule::{self, Addresses, Blocks, Dots, Entries, FreeList, Inodes, Root, Sizes};

pub fn all(rt: &HostRuntime, tally: &mut Tally) -> anyhow::Result<()> {
    group(rt, tally, "sound volumes", &SOUND)?;
    group(rt, tally, "broken superblocks", &SUPERBLOCKS)?;
    group(rt, tally, "broken inodes", &INODES)?;
    group(rt, tally, "blocks lost or twice in use", &BLOCKS)?;
    group(rt, tally, "broken directories", &DIRECTORIES)?;
    group(rt, tally, "volumes broken in two places", &TWICE)
}

// What is changed, in words; the rule that it breaks, if any; the bytes.
type Case = (&'static str, Option<Rule>, &'static [Patch]);

fn group(rt: &HostRuntime, tally: &mut Tally, name: &str, cases: &[Case]) -> anyhow::Result<()> {
    for (case, broken, changes) in cases.iter().copied() {
        let mut memory = sound(rt.alloc())?;
        patch(memory.as_mut_slice(), changes);
        let image = Image::new(memory.as_mut_slice());
        tally.expect(case, check(&image), Ok(broken));
        let refused = open(&image).err().map(|fault| fault.rule);
        tally.expect(case, refused, broken.map(|rule| rule.number()));
    }
    tally.report(rt, name)?;
    Ok(())
}

static SOUND: [Case; 9] = [
    ("as it is", None, &[(0, 0, 0xaa)]),
    (
        "a name of 14 bytes",
        None,
        &[
            (4, 38, b'0'),
            (4, 39, b'1'),
            (4, 40, b'2'),
            (4, 41, b'3'),
            (4, 42, b'4'),
            (4, 43, b'5'),
            (4, 44, b'6'),
            (4, 45, b'7'),
            (4, 46, b'8'),
            (4, 47, b'9'),
        ],
    ),
    (
        "a name of three dots",
        None,
        &[(4, 34, b'.'), (4, 35, b'.'), (4, 36, b'.'), (4, 37, 0)],
    ),
    ("entries exchanged", None, &[(4, 32, 17), (4, 64, 2)]),
    (
        "the rest of a plain file's mode",
        None,
        &[(2, 32, 0), (2, 33, 143)],
    ),
    (
        "a block more given back",
        None,
        &[(1, 4, 4), (1, 12, 7), (3, 6, 0), (3, 8, 0)],
    ),
    ("a size of a whole block", None, &[(3, 6, 0), (3, 7, 2)]),
    (
        "the last inode",
        None,
        &[
            (3, 0, 0),
            (3, 1, 0),
            (3, 480, 182),
            (3, 481, 129),
            (3, 482, 1),
            (3, 486, 1),
            (3, 488, 7),
            (4, 64, 32),
        ],
    ),
    (
        "a directory of four entries, the last empty",
        None,
        &[(2, 6, 64), (3, 0, 0), (3, 1, 0), (1, 4, 4), (1, 12, 7)],
    ),
];

static SUPERBLOCKS: [Case; 14] = [
    ("no inodes", Some(Sizes), &[(1, 0, 0)]),
    ("no room for data", Some(Sizes), &[(1, 0, 8)]),
    ("isize of two bytes", Some(Sizes), &[(1, 1, 1)]),
    ("fsize one too many", Some(Sizes), &[(1, 2, 11)]),
    ("fsize one too few", Some(Sizes), &[(1, 2, 9)]),
    ("fsize of two bytes", Some(Sizes), &[(1, 3, 1)]),
    ("nfree 0", Some(FreeList), &[(1, 4, 0)]),
    ("nfree 101", Some(FreeList), &[(1, 4, 101)]),
    ("nfree of two bytes", Some(FreeList), &[(1, 5, 1)]),
    ("free[0] a block", Some(FreeList), &[(1, 6, 7)]),
    ("free[1] an inode block", Some(FreeList), &[(1, 8, 3)]),
    ("free[1] past the end", Some(FreeList), &[(1, 8, 10)]),
    ("free[1] 0", Some(FreeList), &[(1, 8, 0)]),
    ("free[2] as free[1]", Some(FreeList), &[(1, 10, 9)]),
];

static INODES: [Case; 22] = [
    ("the root a plain file", Some(Root), &[(2, 1, 129)]),
    ("the root of another kind", Some(Root), &[(2, 1, 209)]),
    ("the root linked once", Some(Root), &[(2, 2, 1)]),
    ("the root of one entry", Some(Root), &[(2, 6, 16)]),
    ("the root of half an entry more", Some(Root), &[(2, 6, 88)]),
    ("the root past 4,096", Some(Root), &[(2, 6, 16), (2, 7, 16)]),
    (
        "the root with a high byte of size",
        Some(Root),
        &[(2, 5, 1)],
    ),
    ("a device", Some(Inodes), &[(2, 33, 161)]),
    ("a second directory", Some(Inodes), &[(2, 33, 193)]),
    ("a file linked twice", Some(Inodes), &[(2, 34, 2)]),
    ("a file not linked", Some(Inodes), &[(3, 2, 0)]),
    (
        "a file of 4,097 bytes",
        Some(Inodes),
        &[(2, 38, 1), (2, 39, 16)],
    ),
    (
        "a file with a high byte of size",
        Some(Inodes),
        &[(2, 37, 1)],
    ),
    (
        "the last inode of another kind",
        Some(Inodes),
        &[(3, 481, 240)],
    ),
    (
        "an address 0 within the size",
        Some(Addresses),
        &[(2, 42, 0)],
    ),
    (
        "the first address an inode block",
        Some(Addresses),
        &[(2, 40, 3)],
    ),
    ("an address past the end", Some(Addresses), &[(2, 42, 10)]),
    ("an address of two bytes", Some(Addresses), &[(2, 43, 1)]),
    ("an address behind the size", Some(Addresses), &[(2, 44, 8)]),
    ("the eighth address", Some(Addresses), &[(3, 23, 1)]),
    (
        "an address of the root behind the size",
        Some(Addresses),
        &[(2, 10, 8)],
    ),
    (
        "a file of no bytes that holds a block",
        Some(Addresses),
        &[(3, 6, 0)],
    ),
];

static BLOCKS: [Case; 6] = [
    (
        "a block lost from the free list",
        Some(Blocks),
        &[(1, 4, 2)],
    ),
    ("a free block held", Some(Blocks), &[(3, 8, 8)]),
    ("a block held by two files", Some(Blocks), &[(3, 8, 5)]),
    (
        "a block held twice by one file",
        Some(Blocks),
        &[(2, 42, 5)],
    ),
    (
        "the root's block held by a file",
        Some(Blocks),
        &[(3, 8, 4)],
    ),
    (
        "a block lost with its file's inode",
        Some(Blocks),
        &[(3, 1, 1)],
    ),
];

static DIRECTORIES: [Case; 21] = [
    ("entry 0 of another name", Some(Dots), &[(4, 2, b'x')]),
    ("entry 0 of another number", Some(Dots), &[(4, 0, 2)]),
    (
        "entry 0 with bytes behind its name",
        Some(Dots),
        &[(4, 15, 1)],
    ),
    ("entry 1 is \".\"", Some(Dots), &[(4, 19, 0)]),
    ("entry 1 of another number", Some(Dots), &[(4, 16, 0)]),
    (
        "entry 1 of a number of two bytes",
        Some(Dots),
        &[(4, 17, 1)],
    ),
    (
        "entry 1 with bytes behind its name",
        Some(Dots),
        &[(4, 20, b'.')],
    ),
    ("a slash", Some(Entries), &[(4, 35, b'/')]),
    ("no name", Some(Entries), &[(4, 34, 0)]),
    (
        "a second \".\"",
        Some(Entries),
        &[(4, 34, b'.'), (4, 35, 0), (4, 36, 0), (4, 37, 0)],
    ),
    (
        "a second \"..\"",
        Some(Entries),
        &[(4, 34, b'.'), (4, 35, b'.'), (4, 36, 0), (4, 37, 0)],
    ),
    ("bytes behind a name", Some(Entries), &[(4, 47, 1)]),
    ("the root's number", Some(Entries), &[(4, 32, 1)]),
    ("a number past the inodes", Some(Entries), &[(4, 32, 33)]),
    ("a number of two bytes", Some(Entries), &[(4, 33, 1)]),
    ("a free inode's number", Some(Entries), &[(4, 32, 3)]),
    (
        "two equal names",
        Some(Entries),
        &[(4, 66, b'b'), (4, 67, b'o'), (4, 68, b'l'), (4, 69, b't')],
    ),
    (
        "two entries for one inode",
        Some(Entries),
        &[(4, 48, 2), (4, 50, b'p')],
    ),
    ("a file without an entry", Some(Entries), &[(4, 32, 0)]),
    (
        "a file whose entry lies behind the size",
        Some(Entries),
        &[(2, 6, 64)],
    ),
    (
        "an entry exchanged for another's number",
        Some(Entries),
        &[(4, 64, 2)],
    ),
];

static TWICE: [Case; 9] = [
    ("sizes and an entry", Some(Sizes), &[(1, 2, 11), (4, 34, 0)]),
    (
        "sizes and the free list",
        Some(Sizes),
        &[(1, 0, 0), (1, 4, 0)],
    ),
    (
        "the free list and a lost block",
        Some(FreeList),
        &[(1, 10, 9)],
    ),
    (
        "the free list and the root",
        Some(FreeList),
        &[(1, 6, 1), (2, 2, 1)],
    ),
    ("the root and a file", Some(Root), &[(2, 2, 1), (2, 34, 2)]),
    (
        "a file and an address",
        Some(Inodes),
        &[(2, 34, 2), (2, 42, 0)],
    ),
    (
        "an address and a block held twice",
        Some(Addresses),
        &[(2, 42, 0), (3, 8, 8)],
    ),
    (
        "a block held twice and \"..\"",
        Some(Blocks),
        &[(3, 8, 8), (4, 19, 0)],
    ),
    (
        "\"..\" and a name",
        Some(Dots),
        &[(4, 19, 0), (4, 35, b'/')],
    ),
];
