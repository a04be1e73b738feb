// Keeps price books as files of a volume in a plain store, then hides them in the levels of one set of covers.
#![tactic(auto)]

mod books;
mod hiding;
mod keeping;
mod telling;

use hiding::hide_books;
use keeping::keep_books;

fn main(rt: HostRuntime) -> anyhow::Result<()> {
    run(&rt)
}

// The functions name the host's runtime: under bounds such as `impl Print` the check of this crate takes half as long again.
fn run(rt: &HostRuntime) -> anyhow::Result<()> {
    println!(rt; "PRICE BOOKS AS FILES")?;
    keep_books(rt)?;
    println!(rt)?;
    println!(rt; "PRICE BOOKS HIDDEN IN COVERS")?;
    hide_books(rt)
}
