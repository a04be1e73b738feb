// The scripts: the expected outcomes are worked out from the rules, not taken from a run.
use crate::scripts::Row;
use crate::step::Answer::{Breaks, Count, Done, Holds, Sound};
use crate::step::Step;
use faults::Question::{
    BlockLive, EnoughFreeBlocks, EnoughPlaces, FormatWithinLimits, LengthWithinLimit, NameAbsent,
    NameLawful, NamePresent, VolumeSound,
};
use volume::rule::Rule;

pub static TEN: [Row; 70] = [
    ("format", Step::Format(1), Ok(Done)),
    ("sound", Step::Check, Ok(Sound)),
    ("isize", Step::Byte(1, 0), Ok(Holds(1))),
    ("fsize", Step::Byte(1, 2), Ok(Holds(10))),
    ("nfree", Step::Byte(1, 4), Ok(Holds(7))),
    ("free[0]", Step::Byte(1, 6), Ok(Holds(0))),
    ("free[1] is the last block", Step::Byte(1, 8), Ok(Holds(9))),
    ("free[6] is taken next", Step::Byte(1, 18), Ok(Holds(4))),
    ("free[7] is zero", Step::Byte(1, 20), Ok(Holds(0))),
    ("word 103 is zero", Step::Byte(1, 206), Ok(Holds(0))),
    ("block 0 is zero", Step::Byte(0, 0), Ok(Holds(0))),
    ("the root's block", Step::Byte(2, 8), Ok(Holds(3))),
    ("the root's kind", Step::Byte(2, 1), Ok(Holds(193))),
    ("inode 16 is zero", Step::Byte(2, 511), Ok(Holds(0))),
    ("block 4 stays", Step::Byte(4, 0), Ok(Holds(221))),
    ("behind the entries zero", Step::Byte(3, 511), Ok(Holds(0))),
    ("no files", Step::List(0), Ok(Count(0))),
    (
        "bolt is not there",
        Step::Write("bolt", 1, 1),
        Err(NamePresent),
    ),
    ("bolt", Step::Create("bolt"), Ok(Done)),
    ("bolt's inode", Step::Byte(3, 32), Ok(Holds(2))),
    ("bolt's mode", Step::Byte(2, 32), Ok(Holds(182))),
    ("bolt's links", Step::Byte(2, 34), Ok(Holds(1))),
    ("bolt again", Step::Create("bolt"), Err(NameAbsent)),
    ("an empty file read", Step::Read("bolt", 0, 1), Ok(Count(0))),
    ("600 bytes", Step::Write("bolt", 600, 1), Ok(Done)),
    ("bolt's first block", Step::Byte(2, 40), Ok(Holds(4))),
    ("bolt's second block", Step::Byte(2, 42), Ok(Holds(5))),
    ("bolt's size, low", Step::Byte(2, 38), Ok(Holds(88))),
    ("bolt's size, high", Step::Byte(2, 39), Ok(Holds(2))),
    (
        "the last block is filled up",
        Step::Byte(5, 88),
        Ok(Holds(0)),
    ),
    (
        "the last byte of the block",
        Step::Byte(5, 511),
        Ok(Holds(0)),
    ),
    ("nut", Step::Create("nut"), Ok(Done)),
    ("one byte", Step::Write("nut", 1, 2), Ok(Done)),
    ("nut's block", Step::Byte(2, 72), Ok(Holds(6))),
    ("nfree", Step::Byte(1, 4), Ok(Holds(4))),
    ("sound", Step::Check, Ok(Sound)),
    ("bolt with one byte", Step::Write("bolt", 1, 3), Ok(Done)),
    ("bolt's block", Step::Byte(2, 40), Ok(Holds(4))),
    ("bolt's second address", Step::Byte(2, 42), Ok(Holds(0))),
    ("nfree", Step::Byte(1, 4), Ok(Holds(5))),
    ("bolt read", Step::Read("bolt", 1, 3), Ok(Count(1))),
    ("nut read", Step::Read("nut", 1, 2), Ok(Count(1))),
    ("two files", Step::List(2), Ok(Count(2))),
    ("two files, room for more", Step::List(9), Ok(Count(2))),
    ("room for one", Step::List(1), Err(EnoughPlaces)),
    (
        "bolt with all blocks but nut's and the root's",
        Step::Write("bolt", 2560, 5),
        Ok(Done),
    ),
    (
        "bolt with one byte more",
        Step::Write("bolt", 2561, 6),
        Err(EnoughFreeBlocks),
    ),
    (
        "bolt as it was",
        Step::Read("bolt", 2560, 5),
        Ok(Count(2560)),
    ),
    (
        "nut cannot grow",
        Step::Write("nut", 513, 7),
        Err(EnoughFreeBlocks),
    ),
    ("nut may be rewritten", Step::Write("nut", 512, 7), Ok(Done)),
    ("nut emptied", Step::Write("nut", 0, 7), Ok(Done)),
    ("a block is free", Step::Byte(1, 4), Ok(Holds(2))),
    ("bolt removed", Step::Remove("bolt"), Ok(Done)),
    ("the entry is empty", Step::Byte(3, 32), Ok(Holds(0))),
    ("the name stays", Step::Byte(3, 34), Ok(Holds(98))),
    ("the inode is zero", Step::Byte(2, 33), Ok(Holds(0))),
    ("its addresses too", Step::Byte(2, 40), Ok(Holds(0))),
    ("all blocks are free", Step::Byte(1, 4), Ok(Holds(7))),
    ("bolt is gone", Step::Remove("bolt"), Err(NamePresent)),
    ("sound", Step::Check, Ok(Sound)),
    ("pin takes the empty entry", Step::Create("pin"), Ok(Done)),
    ("pin's inode", Step::Byte(3, 32), Ok(Holds(2))),
    ("pin's name", Step::Byte(3, 34), Ok(Holds(112))),
    ("pin's name is filled up", Step::Byte(3, 37), Ok(Holds(0))),
    (
        "the directory did not grow",
        Step::Byte(2, 6),
        Ok(Holds(64)),
    ),
    ("shim is added behind", Step::Create("shim"), Ok(Done)),
    ("the directory grew", Step::Byte(2, 6), Ok(Holds(80))),
    ("three files", Step::List(300), Ok(Count(3))),
    ("sound", Step::Check, Ok(Sound)),
    ("word 255 is as formatted", Step::Byte(1, 511), Ok(Holds(0))),
];

pub static NAMES: [Row; 21] = [
    ("format", Step::Format(1), Ok(Done)),
    ("14 bytes", Step::Create("abcdefghijklmn"), Ok(Done)),
    ("15 bytes", Step::Create("abcdefghijklmno"), Err(NameLawful)),
    ("no bytes", Step::Create(""), Err(NameLawful)),
    ("a dot", Step::Create("."), Err(NameLawful)),
    ("two dots", Step::Create(".."), Err(NameLawful)),
    ("three dots", Step::Create("..."), Ok(Done)),
    ("a slash", Step::Create("a/b"), Err(NameLawful)),
    ("a zero", Step::Create("a\0b"), Err(NameLawful)),
    ("one byte", Step::Create("a"), Ok(Done)),
    ("a name that begins alike", Step::Create("ab"), Ok(Done)),
    (
        "14 bytes are found",
        Step::Write("abcdefghijklmn", 3, 1),
        Ok(Done),
    ),
    (
        "13 of them are not",
        Step::Into("abcdefghijklm", 9),
        Err(NamePresent),
    ),
    (
        "written under 15",
        Step::Write("abcdefghijklmno", 3, 1),
        Err(NameLawful),
    ),
    ("read under two dots", Step::Into("..", 9), Err(NameLawful)),
    ("removed under a dot", Step::Remove("."), Err(NameLawful)),
    ("a is its own", Step::Write("a", 2, 9), Ok(Done)),
    ("ab is empty", Step::Into("ab", 9), Ok(Count(0))),
    ("a is read", Step::Read("a", 2, 9), Ok(Count(2))),
    ("four files", Step::List(4), Ok(Count(4))),
    ("sound", Step::Check, Ok(Sound)),
];

pub static SIZES: [Row; 44] = [
    ("format", Step::Format(2), Ok(Done)),
    ("created", Step::Create("s0"), Ok(Done)),
    ("written", Step::Write("s0", 0, 10), Ok(Done)),
    ("created", Step::Create("s1"), Ok(Done)),
    ("written", Step::Write("s1", 1, 11), Ok(Done)),
    ("created", Step::Create("s511"), Ok(Done)),
    ("written", Step::Write("s511", 511, 12), Ok(Done)),
    ("created", Step::Create("s512"), Ok(Done)),
    ("written", Step::Write("s512", 512, 13), Ok(Done)),
    ("created", Step::Create("s513"), Ok(Done)),
    ("written", Step::Write("s513", 513, 14), Ok(Done)),
    ("created", Step::Create("s1024"), Ok(Done)),
    ("written", Step::Write("s1024", 1024, 15), Ok(Done)),
    ("created", Step::Create("s4095"), Ok(Done)),
    ("written", Step::Write("s4095", 4095, 16), Ok(Done)),
    ("created", Step::Create("s4096"), Ok(Done)),
    ("written", Step::Write("s4096", 4096, 17), Ok(Done)),
    (
        "read into just so many places",
        Step::Read("s0", 0, 10),
        Ok(Count(0)),
    ),
    (
        "read with a place more",
        Step::Read("s0", 1, 10),
        Ok(Count(0)),
    ),
    (
        "read into just so many places",
        Step::Read("s1", 1, 11),
        Ok(Count(1)),
    ),
    (
        "read with a place more",
        Step::Read("s1", 2, 11),
        Ok(Count(1)),
    ),
    (
        "read with a place less",
        Step::Into("s1", 0),
        Err(EnoughPlaces),
    ),
    (
        "read into just so many places",
        Step::Read("s511", 511, 12),
        Ok(Count(511)),
    ),
    (
        "read with a place more",
        Step::Read("s511", 512, 12),
        Ok(Count(511)),
    ),
    (
        "read with a place less",
        Step::Into("s511", 510),
        Err(EnoughPlaces),
    ),
    (
        "read into just so many places",
        Step::Read("s512", 512, 13),
        Ok(Count(512)),
    ),
    (
        "read with a place more",
        Step::Read("s512", 513, 13),
        Ok(Count(512)),
    ),
    (
        "read with a place less",
        Step::Into("s512", 511),
        Err(EnoughPlaces),
    ),
    (
        "read into just so many places",
        Step::Read("s513", 513, 14),
        Ok(Count(513)),
    ),
    (
        "read with a place more",
        Step::Read("s513", 514, 14),
        Ok(Count(513)),
    ),
    (
        "read with a place less",
        Step::Into("s513", 512),
        Err(EnoughPlaces),
    ),
    (
        "read into just so many places",
        Step::Read("s1024", 1024, 15),
        Ok(Count(1024)),
    ),
    (
        "read with a place more",
        Step::Read("s1024", 1025, 15),
        Ok(Count(1024)),
    ),
    (
        "read with a place less",
        Step::Into("s1024", 1023),
        Err(EnoughPlaces),
    ),
    (
        "read into just so many places",
        Step::Read("s4095", 4095, 16),
        Ok(Count(4095)),
    ),
    (
        "read with a place more",
        Step::Read("s4095", 4096, 16),
        Ok(Count(4095)),
    ),
    (
        "read with a place less",
        Step::Into("s4095", 4094),
        Err(EnoughPlaces),
    ),
    (
        "read into just so many places",
        Step::Read("s4096", 4096, 17),
        Ok(Count(4096)),
    ),
    (
        "read with a place more",
        Step::Read("s4096", 4097, 17),
        Ok(Count(4096)),
    ),
    (
        "read with a place less",
        Step::Into("s4096", 4095),
        Err(EnoughPlaces),
    ),
    (
        "4,097 bytes",
        Step::Write("s0", 4097, 1),
        Err(LengthWithinLimit),
    ),
    (
        "4,097 bytes of no file",
        Step::Write("none", 4097, 1),
        Err(LengthWithinLimit),
    ),
    ("eight files", Step::List(8), Ok(Count(8))),
    ("sound", Step::Check, Ok(Sound)),
];

pub static FOUR: [Row; 7] = [
    ("format", Step::Format(1), Ok(Done)),
    ("nfree", Step::Byte(1, 4), Ok(Holds(1))),
    ("created", Step::Create("a"), Ok(Done)),
    ("no bytes", Step::Write("a", 0, 1), Ok(Done)),
    ("one byte", Step::Write("a", 1, 1), Err(EnoughFreeBlocks)),
    ("still empty", Step::Read("a", 9, 1), Ok(Count(0))),
    ("sound", Step::Check, Ok(Sound)),
];

pub static FORMATS: [Row; 7] = [
    ("no inodes", Step::Format(0), Err(FormatWithinLimits)),
    ("no room for data", Step::Format(8), Err(FormatWithinLimits)),
    (
        "far too many",
        Step::Format(18_446_744_073_709_551_615),
        Err(FormatWithinLimits),
    ),
    ("nothing is written", Step::Byte(0, 0), Ok(Holds(221))),
    ("one data block", Step::Format(7), Ok(Done)),
    ("nfree", Step::Byte(1, 4), Ok(Holds(1))),
    ("sound", Step::Check, Ok(Sound)),
];

pub static ORDER: [Row; 13] = [
    (
        "an unlawful name before all",
        Step::Create("a/b"),
        Err(NameLawful),
    ),
    (
        "the same in a write too long",
        Step::Write("a/b", 4097, 1),
        Err(NameLawful),
    ),
    (
        "a write too long before the check",
        Step::Write("a", 4097, 1),
        Err(LengthWithinLimit),
    ),
    (
        "the check before the name",
        Step::Into("a", 0),
        Err(VolumeSound),
    ),
    ("no volume to list", Step::List(0), Err(VolumeSound)),
    (
        "no volume to create in",
        Step::Create("a"),
        Err(VolumeSound),
    ),
    (
        "no volume to remove from",
        Step::Remove("a"),
        Err(VolumeSound),
    ),
    (
        "no volume to write to",
        Step::Write("a", 1, 1),
        Err(VolumeSound),
    ),
    ("format", Step::Format(1), Ok(Done)),
    ("a", Step::Create("a"), Ok(Done)),
    ("all blocks", Step::Write("a", 3072, 1), Ok(Done)),
    (
        "a file that is not there before want of blocks",
        Step::Write("b", 4096, 1),
        Err(NamePresent),
    ),
    (
        "a file that is not there before want of places",
        Step::Into("b", 0),
        Err(NamePresent),
    ),
];

pub static DEAD: [Row; 11] = [
    (
        "limits before dead blocks",
        Step::Format(0),
        Err(FormatWithinLimits),
    ),
    ("format", Step::Format(1), Err(BlockLive)),
    ("nothing is written", Step::Byte(0, 0), Ok(Holds(221))),
    (
        "an unlawful name first",
        Step::Remove(".."),
        Err(NameLawful),
    ),
    (
        "a write too long first",
        Step::Write("a", 4097, 1),
        Err(LengthWithinLimit),
    ),
    (
        "dead blocks before the check",
        Step::Write("a", 1, 1),
        Err(BlockLive),
    ),
    ("create", Step::Create("a"), Err(BlockLive)),
    ("remove", Step::Remove("a"), Err(BlockLive)),
    ("read", Step::Into("a", 9), Err(BlockLive)),
    ("list", Step::List(9), Err(BlockLive)),
    ("check", Step::Check, Err(BlockLive)),
];

pub static LONG: [Row; 3] = [
    ("101 blocks", Step::Format(1), Err(FormatWithinLimits)),
    ("no volume", Step::Check, Ok(Breaks(Rule::Sizes))),
    ("list", Step::List(0), Err(VolumeSound)),
];
