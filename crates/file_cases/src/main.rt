// The calls on files: scripts of calls on a volume, each step with the outcome that the rules give.
#![tactic(auto)]

use tally::Tally;

mod contents;
mod filling;
mod scripts;
mod step;
mod tables;

fn main(rt: HostRuntime) -> anyhow::Result<()> {
    let mut tally = Tally::new();
    scripts::all(&rt, &mut tally)?;
    filling::all(&rt, &mut tally)?;
    tally.verdict()
}
