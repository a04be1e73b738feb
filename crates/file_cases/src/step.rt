// One call on a volume, and how it goes.
use crate::contents::{contents, holds};
use allotment::format::format;
use faults::{Fault, Question};
use reading::list::{FileRecord, list};
use reading::read::read;
use std::alloc::{AllocError, Global};
use store::interface::Store;
use volume::check::check;
use volume::rule::Rule;
use writing::create::create;
use writing::remove::remove;
use writing::write::write;

// What is done. Names are texts; a file's contents come from a seed. An enum, since a table holds no closures.
#[derive(Clone, Copy)]
pub enum Step {
    Format(usize),
    Check,
    Create(&'static str),
    Write(&'static str, usize, u8),
    Read(&'static str, usize, u8),
    Into(&'static str, usize),
    Remove(&'static str),
    List(usize),
    Byte(usize, usize),
}

// What a step that goes through answers.
#[derive(Clone, Copy, Debug, PartialEq, Eq)]
pub enum Answer {
    Done,
    Sound,
    Breaks(Rule),
    // The bytes read, or the files listed.
    Count(usize),
    // What is in the byte.
    Holds(u8),
}

// Why a step does not go through.
#[derive(Clone, Copy, Debug, PartialEq, Eq)]
pub enum Failure {
    Refused(Question),
    // What was brought to be filled has something else in it.
    Spoilt,
    OutOfMemory,
}

impl From<Fault> for Failure {
    fn from(fault: Fault) -> Failure {
        Failure::Refused(fault.question)
    }
}

impl From<AllocError> for Failure {
    fn from(_error: AllocError) -> Failure {
        Failure::OutOfMemory
    }
}

fn done(answer: Result<(), Fault>) -> Result<Answer, Failure> {
    answer?;
    Ok(Answer::Done)
}

fn check_all<S: Store>(store: &S) -> Result<Answer, Failure> {
    Ok(check(store)?.map_or(Answer::Sound, Answer::Breaks))
}

fn write_seeded<S: Store>(
    alloc: Global,
    store: &mut S,
    name: &str,
    len: usize,
    seed: u8,
) -> Result<Answer, Failure> {
    let bytes = contents(alloc, seed, len)?;
    done(write(store, name.as_bytes(), bytes.as_slice()))
}

// Reads into as many places, and compares; later bytes stay as they were brought.
fn read_seeded<S: Store>(
    alloc: Global,
    store: &S,
    name: &str,
    room: usize,
    seed: u8,
) -> Result<Answer, Failure> {
    let mut buffer = vec![in alloc; 0xeeu8; room]?;
    let answer = read(store, name.as_bytes(), buffer.as_mut_slice());
    if !holds(buffer.as_slice(), answer.unwrap_or(0), seed, 0xee) {
        return Err(Failure::Spoilt);
    }
    Ok(Answer::Count(answer?))
}

const BLANK: FileRecord = FileRecord {
    name: [0xee; 14],
    inode: 7777,
    size: 7777,
};

// How many files are listed; the records behind them stay as they were brought.
fn list_into<S: Store>(alloc: Global, store: &S, room: usize) -> Result<Answer, Failure> {
    let mut records = vec![in alloc; BLANK; room]?;
    let answer = list(store, records.as_mut_slice());
    let mut behind = records.iter().skip(answer.unwrap_or(0));
    if behind.any(|record| record.inode != BLANK.inode || record.size != BLANK.size) {
        return Err(Failure::Spoilt);
    }
    Ok(Answer::Count(answer?))
}

// A byte of a block as the store has it.
fn byte<S: Store>(store: &S, block: usize, at: usize) -> Result<Answer, Failure> {
    let mut buffer = [0; 512];
    store.fetch(block, &mut buffer)?;
    Ok(Answer::Holds(buffer[at % 512]))
}

impl Step {
    pub fn on<S: Store>(self, alloc: Global, store: &mut S) -> Result<Answer, Failure> {
        match self {
            Step::Format(isize) => done(format(store, isize)),
            Step::Check => check_all(store),
            Step::Create(name) => done(create(store, name.as_bytes())),
            Step::Write(name, len, seed) => write_seeded(alloc, store, name, len, seed),
            Step::Read(name, room, seed) => read_seeded(alloc, store, name, room, seed),
            Step::Into(name, room) => read_seeded(alloc, store, name, room, 0),
            Step::Remove(name) => done(remove(store, name.as_bytes())),
            Step::List(room) => list_into(alloc, store, room),
            Step::Byte(block, at) => byte(store, block, at),
        }
    }
}
