// The key table: what each call answers, in sequences whose every step has the value that the rules give.
use faults::Fault;
use faults::Question::{
    self, CandidateBelowLimit, CoversWithinLimits, EnoughLevels, EnoughPlaces, KeyOrthonormal,
    KeySumOpen, RemainderOdd, RoomForLevel,
};
use keys::table::KeyTable;
use tally::Tally;

pub fn all(rt: &HostRuntime, tally: &mut Tally) -> anyhow::Result<()> {
    limits(tally);
    sequences(tally)?;
    sixteen_levels(tally)?;
    tally.report(rt, "keys added and taken")?;
    disclosures(tally)?;
    tally.report(rt, "keys disclosed")?;
    Ok(())
}

// A number brought, as a candidate to add or as a key to take. An enum, since a table holds no closures.
#[derive(Clone, Copy)]
enum Call {
    Add(u64),
    Take(u64),
}

use Call::{Add, Take};

impl Call {
    fn on(self, table: &mut KeyTable) -> Result<usize, Fault> {
        match self {
            Add(candidate) => table.add(candidate),
            Take(key) => table.take(key),
        }
    }
}

// A number brought, and the key that then stands, or the question that refuses it.
type Row = (Call, Result<u64, Question>);

const TWO_COVERS: [Row; 8] = [
    (Add(4), Err(CandidateBelowLimit)),
    (Add(3), Err(RemainderOdd)),
    (Add(1), Ok(1)),
    (Take(1), Err(KeyOrthonormal)),
    (Add(2), Ok(2)),
    (Add(0), Err(KeySumOpen)),
    (Take(2), Err(KeySumOpen)),
    (Add(4), Err(KeySumOpen)),
];

const FOUR_COVERS: [Row; 11] = [
    (Add(0), Err(RemainderOdd)),
    (Add(7), Ok(7)),
    (Add(3), Err(RemainderOdd)),
    (Add(16), Err(CandidateBelowLimit)),
    (Add(9), Ok(14)),
    (Add(2), Ok(11)),
    (Take(7), Err(KeyOrthonormal)),
    (Take(4), Err(KeyOrthonormal)),
    (Add(4), Ok(13)),
    (Add(1), Err(KeySumOpen)),
    (Take(16), Err(KeySumOpen)),
];

const TAKEN: [Row; 7] = [
    (Take(3), Err(KeyOrthonormal)),
    (Take(7), Ok(7)),
    (Take(9), Err(KeyOrthonormal)),
    (Take(14), Ok(14)),
    (Take(11), Ok(11)),
    (Take(13), Ok(13)),
    (Take(13), Err(KeySumOpen)),
];

// Two keys that sum to all four covers, so that no third one fits.
const CLOSED_EARLY: [Row; 4] = [
    (Add(7), Ok(7)),
    (Add(8), Ok(8)),
    (Add(1), Err(KeySumOpen)),
    (Take(1), Err(KeySumOpen)),
];

const COVERS_31: [Row; 4] = [
    (Add(0x8000_0000), Err(CandidateBelowLimit)),
    (Add(0x7fff_fffe), Err(RemainderOdd)),
    (Add(0x7fff_ffff), Ok(0x7fff_ffff)),
    (Add(1), Err(KeySumOpen)),
];

const COVERS_32: [Row; 8] = [
    (Add(0xffff_ffff), Err(RemainderOdd)),
    (Add(0x1_0000_0000), Err(CandidateBelowLimit)),
    (Add(0x8000_0000_0000_0000), Err(CandidateBelowLimit)),
    (Take(0x8000_0000_0000_0000), Err(CandidateBelowLimit)),
    (Add(0xffff_fffe), Ok(0xffff_fffe)),
    (Add(0xffff_ffff), Ok(1)),
    (Add(0x8000_0000), Err(KeySumOpen)),
    (Take(3), Err(KeySumOpen)),
];

// The rows one after the other on one table; an accepted one answers the number of levels before it.
fn walk(tally: &mut Tally, name: &str, covers: usize, rows: &[Row]) -> Result<(), Fault> {
    let mut table = KeyTable::new(covers)?;
    for (call, wanted) in rows.iter().copied() {
        let before = table.count();
        let answer = call.on(&mut table);
        tally.answers(name, answer, wanted.map(|_| ()));
        if let Ok(level) = answer {
            tally.expect(name, level, before);
            tally.expect(name, table.key(level), wanted.ok());
            tally.expect(name, table.count(), before.saturating_add(1));
        } else {
            tally.expect(name, table.count(), before);
        }
    }
    Ok(())
}

fn limits(tally: &mut Tally) {
    for (covers, wanted) in [
        (0, Err(CoversWithinLimits)),
        (1, Err(CoversWithinLimits)),
        (2, Ok(())),
        (32, Ok(())),
        (33, Err(CoversWithinLimits)),
        (1 << 40, Err(CoversWithinLimits)),
    ] {
        tally.answers("number of covers", KeyTable::new(covers), wanted);
    }
}

fn sequences(tally: &mut Tally) -> Result<(), Fault> {
    walk(tally, "two covers", 2, &TWO_COVERS)?;
    walk(tally, "four covers", 4, &FOUR_COVERS)?;
    walk(tally, "four covers, keys taken", 4, &TAKEN)?;
    walk(tally, "four covers, closed early", 4, &CLOSED_EARLY)?;
    walk(tally, "31 covers", 31, &COVERS_31)?;
    walk(tally, "32 covers", 32, &COVERS_32)
}

// Sixteen levels at 32 covers, each with one cover of its own; then no further one.
fn sixteen_levels(tally: &mut Tally) -> Result<(), Fault> {
    let mut table = KeyTable::new(32)?;
    for level in 0..16 {
        tally.expect("sixteen levels", table.add(1 << level), Ok(level));
    }
    for brought in [1 << 16, 1 << 40, 0] {
        tally.answers("a seventeenth", table.add(brought), Err(RoomForLevel));
        tally.answers("a seventeenth", table.take(brought), Err(RoomForLevel));
    }
    tally.expect("sixteen levels", table.count(), 16);
    Ok(())
}

// Of three levels: none, all, one too many, and a list that is one place short.
fn disclosures(tally: &mut Tally) -> Result<(), Fault> {
    let mut table = KeyTable::new(4)?;
    for candidate in [7, 9, 2] {
        tally.answers("disclosing", table.add(candidate), Ok(()));
    }
    for (d, wanted, first, third) in [
        (0, Ok(()), 90, 90),
        (1, Ok(()), 7, 90),
        (3, Ok(()), 7, 11),
        (4, Err(EnoughLevels), 90, 90),
        (1 << 40, Err(EnoughLevels), 90, 90),
    ] {
        let mut list = [90; 4];
        let answer = table.disclose(d, &mut list);
        tally.answers("disclosing", answer, wanted);
        tally.expect("disclosed first", list[0], first);
        tally.expect("disclosed third", list[2], third);
        tally.expect("place past the keys", list[3], 90);
    }
    let mut short = [90; 2];
    let answer = table.disclose(3, &mut short);
    tally.answers("a place short", answer, Err(EnoughPlaces));
    tally.expect("a place short", short, [90, 90]);
    Ok(())
}
