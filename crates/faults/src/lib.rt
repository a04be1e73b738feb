// Why a call was refused: the question it failed and the place the failure names.
#![tactic(auto)]

ghost use Rattle.std.specs.Prelude.{◌≡◌};
ghost use Rattle.faults.specs.Faults.{number_of, bare, past_count, dead_block, renumbered};

use std::error::Error;
use std::fmt;

// The questions that a call may fail, in the order of their numbers, 1 to 24.
#[derive(Clone, Copy, Debug, PartialEq, Eq)]
pub enum Question {
    BlockBelowCount = 1,
    BlockLive = 2,
    RoomToCondemn = 3,
    NoCoversYet = 4,
    CoversWithinLimits = 5,
    EnoughStoreBlocks = 6,
    CoversLaidOut = 7,
    RoomForLevel = 8,
    KeySumOpen = 9,
    CandidateBelowLimit = 10,
    RemainderOdd = 11,
    KeyOrthonormal = 12,
    EnoughLevels = 13,
    EnoughPlaces = 14,
    LevelStanding = 15,
    FormatWithinLimits = 16,
    VolumeSound = 17,
    NameLawful = 18,
    LengthWithinLimit = 19,
    NameAbsent = 20,
    NamePresent = 21,
    InodeFree = 22,
    EntryFree = 23,
    EnoughFreeBlocks = 24,
}

impl Question {
    // The project's number of the question. It has a name of its own, since `u8::from` would not say that it is the number which is printed.
    pub fn number(self) -> u8
        ensures { result ≡ number_of self }
    {
        self as u8
    }
}

impl fmt::Display for Question {
    // The refusal in words, for a fault that names no place.
    fn fmt<W: fmt::Write>(&self, f: &mut fmt::Formatter<W>) -> fmt::Result {
        f.write_str(match self {
            Question::BlockBelowCount => "there is no such block",
            Question::BlockLive => "the block is dead",
            Question::RoomToCondemn => "eight blocks are condemned already",
            Question::NoCoversYet => "the covers are laid out already",
            Question::CoversWithinLimits => "there must be 2 to 32 covers of 4 to 100 blocks",
            Question::EnoughStoreBlocks => "the store has too few blocks for these covers",
            Question::CoversLaidOut => "no covers are laid out",
            Question::RoomForLevel => "sixteen levels stand already",
            Question::KeySumOpen => "no further key fits the standing ones",
            Question::CandidateBelowLimit => "the number names a cover that is not there",
            Question::RemainderOdd => "the candidate leaves an even remainder",
            Question::KeyOrthonormal => "the key is not orthonormal with the standing ones",
            Question::EnoughLevels => "fewer levels stand",
            Question::EnoughPlaces => "the list or buffer brought has too few places",
            Question::LevelStanding => "no such level stands",
            Question::FormatWithinLimits =>
                "a volume has at most 100 blocks, three of them outside the inode list",
            Question::VolumeSound => "the volume is not sound",
            Question::NameLawful => "the name is not lawful",
            Question::LengthWithinLimit => "a file has at most 4096 bytes",
            Question::NameAbsent => "there is a file of that name",
            Question::NamePresent => "there is no file of that name",
            Question::InodeFree => "no inode is free",
            Question::EntryFree => "the directory has no empty entry and 256 in all",
            Question::EnoughFreeBlocks => "there are too few free blocks",
        })
    }
}

// A refusal. The record is the project's, the same for every question: a field that has no meaning for its question is 0.
#[derive(Clone, Copy, Debug, PartialEq, Eq)]
pub struct Fault {
    pub question: Question,
    pub level: usize,
    pub block: usize,
    pub cover: usize,
    pub rule: u8,
}

impl From<Question> for Fault {
    ghost from_gives = { λ question fault. fault ≡ bare question };

    fn from(question: Question) -> Fault {
        Fault::bare(question)
    }
}

impl Fault {
    // A refusal of which the question says it all: `from` by a name that a const fn can call.
    pub const fn bare(question: Question) -> Fault
        ensures { result ≡ bare question }
    {
        Fault {
            question,
            level: 0,
            block: 0,
            cover: 0,
            rule: 0,
        }
    }

    // There is no block of that number.
    pub const fn past_count(block: usize) -> Fault
        ensures { result ≡ past_count block }
    {
        Fault {
            block,
            ..Fault::bare(Question::BlockBelowCount)
        }
    }

    // The block is dead in a plain store, which has no levels and no covers. Not one function with `past_count`: each name says its question.
    pub const fn dead_block(block: usize) -> Fault
        ensures { result ≡ dead_block block 0 0 }
    {
        Fault {
            block,
            ..Fault::bare(Question::BlockLive)
        }
    }

    // The same refusal, for the block's number in the store that was called.
    pub const fn renumbered(self, block: usize) -> Fault
        ensures { result ≡ renumbered block self }
    {
        Fault { block, ..self }
    }
}

impl fmt::Display for Fault {
    // A sentence with the number and the places that the question names. The level that a call named is for the caller to tell.
    fn fmt<W: fmt::Write>(&self, f: &mut fmt::Formatter<W>) -> fmt::Result {
        let Fault {
            question,
            level,
            block,
            cover,
            rule,
        } = *self;
        let number = question.number();
        write!(f, "refused, number {number}: ")?;
        match question {
            Question::BlockBelowCount => write!(f, "there is no block {block}"),
            Question::BlockLive => {
                write!(f, "block {block} is dead (level {level}, cover {cover})")
            }
            Question::LevelStanding => write!(f, "level {level} does not stand"),
            Question::VolumeSound => write!(f, "the volume breaks rule S{rule}"),
            _ => write!(f, "{question}"),
        }
    }
}

impl Error for Fault {}
