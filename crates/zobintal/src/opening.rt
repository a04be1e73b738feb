// Keys for a set of covers, added from candidates and disclosed.
use anyhow::Context;
use keys::table::KeyTable;

// Adds each candidate in turn, and shows the key that it gives or why it gives none.
fn add_all(rt: &impl Print, table: &mut KeyTable, candidates: &[u64]) -> anyhow::Result<()> {
    for candidate in candidates {
        match table.add(*candidate) {
            Ok(level) => {
                let key = table.key(level).context("a level stands without a key")?;
                println!(rt; "  candidate {candidate}: level {level} has the key {key}")?;
            }
            Err(fault) => println!(rt; "  candidate {candidate}: {fault}")?,
        }
    }
    Ok(())
}

// Opens levels over four covers, and discloses the lowest two.
pub fn open_levels(rt: &impl Print) -> anyhow::Result<()> {
    let mut table = KeyTable::new(4)?;
    let covers = table.covers();
    println!(rt; "Keys over {covers} covers:")?;
    add_all(rt, &mut table, &[7, 3, 9, 2, 4, 1])?;
    let mut list = [0; 16];
    let count = table.disclose(2, &mut list)?;
    let standing = table.count();
    println!(rt; "Disclosed, {count} of {standing}:")?;
    for key in list.iter().take(count) {
        println!(rt; "  {key}")?;
    }
    Ok(())
}
