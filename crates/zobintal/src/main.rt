// Lays a price list into a stripe of two stores, past a dead block, and reads it back; then opens levels by their keys.
#![tactic(auto)]

mod filing;
mod opening;
mod price_list;

use anyhow::{anyhow, ensure};
use filing::{lay, read_back};
use opening::open_levels;
use price_list::PRICE_LIST;
use store::image::Image;
use store::interface::Store;
use store::liveness::all_live;
use store::pocket::Pocket;
use store::stripe::Stripe;

fn main(rt: HostRuntime) -> anyhow::Result<()> {
    run(&rt)
}

fn run(rt: &(impl Print + AllocGlobal)) -> anyhow::Result<()> {
    let mut pocket = Pocket::new();
    pocket.condemn(1)?;
    let count = pocket.count();
    println!(rt; "A pocket store of {count} blocks, with block 1 condemned.")?;

    let mut memory = vec![in rt.alloc(); 0u8; 5220]?;
    let len = memory.len();
    let image = Image::new(memory.as_mut_slice());
    let count = image.count();
    println!(rt; "An image store over {len} bytes of memory: {count} blocks.")?;

    let mut stripe = Stripe::new(pocket, image);
    let count = stripe.count();
    println!(rt; "A stripe of the two: {count} blocks.")?;
    if let Err(fault) = all_live(&stripe) {
        println!(rt; "Asked whether it is live throughout: {fault}.")?;
    }
    keep_list(rt, &mut stripe)?;
    println!(rt)?;
    open_levels(rt)
}

// Lays the price list into the store, reads it back, compares and prints it.
fn keep_list<S: Store>(rt: &(impl Print + AllocGlobal), store: &mut S) -> anyhow::Result<()> {
    let text = PRICE_LIST.as_bytes();
    let len = text.len();
    println!(rt; "Laying a price list of {len} bytes:")?;
    let places = lay(rt, store, text)?;
    let mut back = read_back(rt.alloc(), store, places.as_slice())?;
    back.truncate(len);
    ensure!(
        back.as_slice() == text,
        "the list read back is not the list that was laid"
    );
    println!(rt; "Read back from blocks {places:?}, it is the same:")?;
    println!(rt)?;
    let list = String::from_utf8(back).map_err(|_| anyhow!("the list read back is no text"))?;
    print!(rt; "{list}")?;
    Ok(())
}
