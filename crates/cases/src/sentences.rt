// Every refusal in words, with the fields that its question names.
use faults::{Fault, Question};
use std::io;

const QUESTIONS: [Question; 24] = [
    Question::BlockBelowCount,
    Question::BlockLive,
    Question::RoomToCondemn,
    Question::NoCoversYet,
    Question::CoversWithinLimits,
    Question::EnoughStoreBlocks,
    Question::CoversLaidOut,
    Question::RoomForLevel,
    Question::KeySumOpen,
    Question::CandidateBelowLimit,
    Question::RemainderOdd,
    Question::KeyOrthonormal,
    Question::EnoughLevels,
    Question::EnoughPlaces,
    Question::LevelStanding,
    Question::FormatWithinLimits,
    Question::VolumeSound,
    Question::NameLawful,
    Question::LengthWithinLimit,
    Question::NameAbsent,
    Question::NamePresent,
    Question::InodeFree,
    Question::EntryFree,
    Question::EnoughFreeBlocks,
];

pub fn show_all(rt: &HostRuntime) -> io::Result<()> {
    for question in QUESTIONS {
        let fault = Fault {
            question,
            level: 2,
            block: 40,
            cover: 5,
            rule: 6,
        };
        println!(rt; "{fault}")?;
    }
    Ok(())
}
