// Sound and broken volumes, each compared with the rule that it breaks first.
#![tactic(auto)]

use tally::Tally;

mod base;
mod broken;
mod sizes;

fn main(rt: HostRuntime) -> anyhow::Result<()> {
    let mut tally = Tally::new();
    broken::all(&rt, &mut tally)?;
    sizes::all(&rt, &mut tally)?;
    tally.verdict()
}
