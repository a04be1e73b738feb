// Price books hidden in the levels of one set of covers.
use crate::books::{LIMITS, OFFER, OFFER_OF_MAY, QUOTES};
use crate::telling::{tell, text_of};
use anyhow::ensure;
use std::alloc::{AllocError, Global};
use store::image::Image;
use store::interface::{Block, Store};
use store::padding::padded;
use wallet::wallet::Wallet;

// Memory that looks like noise, as covers should before anything is laid into them. It hides nothing by itself: it is the same each time.
fn noise(heap: Global, len: usize) -> Result<Vec<u8>, AllocError> {
    let mut bytes = Vec::new(heap);
    let mut x: u32 = 1998;
    for _ in 0..len {
        x = x.wrapping_mul(1_664_525).wrapping_add(1_013_904_223);
        bytes.push((x >> 24) as u8)?;
    }
    Ok(bytes)
}

// A set of four covers in memory, one block of which is condemned.
pub fn hide_books(rt: &HostRuntime) -> anyhow::Result<()> {
    let mut memory = noise(rt.alloc(), 16_384)?;
    let mut image = Image::new(memory.as_mut_slice());
    image.condemn(10)?;
    hide_in(rt, image)
}

fn hide_in<S: Store + Drop>(rt: &HostRuntime, store: S) -> anyhow::Result<()> {
    let mut wallet = Wallet::new(store);
    wallet.lay_out(4, 8)?;
    println!(rt; "Laid out: four covers of eight blocks.")?;
    add_keys(rt, &mut wallet, &[7, 3, 9, 2])?;
    fill_levels(rt, &mut wallet)?;
    edit(rt, &mut wallet)?;
    disclose(rt, &wallet, 1)?;
    refusals(rt, &mut wallet)
}

// The loop in zobintal adds to a table and shows keys, which a wallet does not tell: with a closure for each difference it is no shorter.
fn add_keys<S: Store>(
    rt: &HostRuntime,
    wallet: &mut Wallet<S>,
    candidates: &[u64],
) -> anyhow::Result<()> {
    for candidate in candidates {
        match wallet.add(*candidate) {
            Ok(level) => println!(rt; "  candidate {candidate}: level {level} stands")?,
            Err(fault) => println!(rt; "  candidate {candidate}: {fault}")?,
        }
    }
    Ok(())
}

fn fill_levels<S: Store>(rt: &HostRuntime, wallet: &mut Wallet<S>) -> anyhow::Result<()> {
    wallet.level_put(0, 0, &padded(OFFER.as_bytes()))?;
    wallet.level_put(1, 0, &padded(LIMITS.as_bytes()))?;
    wallet.level_put(2, 0, &padded(QUOTES.as_bytes()))?;
    show_levels(rt, wallet)
}

// What each level shows in its first block.
fn show_levels<S: Store>(rt: &HostRuntime, wallet: &mut Wallet<S>) -> anyhow::Result<()> {
    for level in 0..3 {
        let title = title_of(rt.alloc(), &fetched(wallet, level)?)?;
        println!(rt; "  level {level} shows: {title}")?;
    }
    Ok(())
}

fn fetched<S: Store>(wallet: &mut Wallet<S>, level: usize) -> anyhow::Result<Block> {
    let mut block = [0; 512];
    wallet.level_fetch(level, 0, &mut block)?;
    Ok(block)
}

// The first line of a text.
fn title_of(alloc: Global, block: &Block) -> Result<String, AllocError> {
    let end = block.iter().position(|byte| *byte == b'\n').unwrap_or(0);
    text_of(alloc, &block[..end])
}

// The open list is edited, and the hidden books are compared with what they were.
fn edit<S: Store>(rt: &HostRuntime, wallet: &mut Wallet<S>) -> anyhow::Result<()> {
    let limits = fetched(wallet, 1)?;
    let quotes = fetched(wallet, 2)?;
    wallet.level_put(0, 0, &padded(OFFER_OF_MAY.as_bytes()))?;
    println!(rt; "The offer of level 0 replaced by that of May:")?;
    show_levels(rt, wallet)?;
    let same = fetched(wallet, 1)? == limits && fetched(wallet, 2)? == quotes;
    ensure!(same, "an edit of one level changed another");
    println!(rt; "  levels 1 and 2 are the same to the byte")?;
    Ok(())
}

// The keys that open the lowest levels.
fn disclose<S: Store>(rt: &HostRuntime, wallet: &Wallet<S>, d: usize) -> anyhow::Result<()> {
    let mut list = [0; 16];
    let count = wallet.disclose(d, &mut list)?;
    for (level, key) in list.iter().take(count).enumerate() {
        println!(rt; "Disclosed: level {level} has the key {key}.")?;
    }
    Ok(())
}

fn refusals<S: Store>(rt: &HostRuntime, wallet: &mut Wallet<S>) -> anyhow::Result<()> {
    println!(rt; "Refused:")?;
    let block = [0; 512];
    tell(rt, "choose level 9", wallet.choose(9))?;
    tell(rt, "put block 8 of level 0", wallet.level_put(0, 8, &block))?;
    tell(rt, "put block 2 of level 1", wallet.level_put(1, 2, &block))?;
    tell(rt, "lay out again", wallet.lay_out(2, 4))?;
    Ok(())
}
