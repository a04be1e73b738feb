// Edges, refusals and worked cases, each compared with the value that the rules give.
#![tactic(auto)]

use tally::Tally;

mod key_tables;
mod sentences;
mod stores;

fn main(rt: HostRuntime) -> anyhow::Result<()> {
    let mut tally = Tally::new();
    stores::all(&rt, &mut tally)?;
    key_tables::all(&rt, &mut tally)?;
    sentences::show_all(&rt)?;
    tally.verdict()
}
