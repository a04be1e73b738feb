// Wallets at their edges, and a wide set of long covers, each compared with the value that the rules give.
#![tactic(auto)]

use tally::Tally;

mod dead_covers;
mod laying_out;
mod order;
mod trial;
mod wide;
mod worked;

fn main(rt: HostRuntime) -> anyhow::Result<()> {
    let mut tally = Tally::new();
    laying_out::all(&rt, &mut tally)?;
    order::all(&rt, &mut tally)?;
    dead_covers::all(&rt, &mut tally)?;
    worked::all(&rt, &mut tally)?;
    wide::all(&rt, &mut tally)?;
    tally.verdict()
}
