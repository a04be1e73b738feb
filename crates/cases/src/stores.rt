// The stores: lengths, edges, refusals and what they leave.
use faults::Fault;
use faults::Question::{BlockBelowCount, BlockLive, RoomToCondemn};
use std::io;
use store::image::Image;
use store::interface::Store;
use store::liveness::all_live;
use store::plain::whole_blocks;
use store::pocket::Pocket;
use store::stripe::Stripe;
use tally::{Outcome, Tally};

pub fn all(rt: &HostRuntime, tally: &mut Tally) -> io::Result<()> {
    lengths(tally);
    tally.report(rt, "lengths of memory")?;
    all_edges(tally);
    tally.report(rt, "edges of stores")?;
    condemning(tally);
    tally.report(rt, "condemned blocks")?;
    memory_after(tally);
    tally.report(rt, "the caller's memory after an image")?;
    turns(tally);
    tally.report(rt, "blocks in turn")?;
    renumbering(tally);
    tally.report(rt, "refusals through stripes")?;
    Ok(())
}

// How many blocks a memory shows, from its length alone: no memory of that length is needed.
const LENGTHS: [(usize, usize); 9] = [
    (0, 0),
    (511, 0),
    (512, 1),
    (513, 1),
    (1100, 2),
    (536_870_911, 1_048_575),
    (536_870_912, 1_048_576),
    (536_871_424, 1_048_576),
    (18_446_744_073_709_551_615, 1_048_576),
];

fn lengths(tally: &mut Tally) {
    for (len, count) in LENGTHS {
        tally.expect("whole blocks", whole_blocks(len), count);
    }
}

// The block that a refusal names.
fn block_in(answer: Result<(), Fault>) -> Option<usize> {
    answer.err().map(|fault| fault.block)
}

// Eight blocks may be condemned. One that is already may be condemned again, also when there are eight.
const CONDEMNED: [(usize, Outcome); 13] = [
    (16, Err(BlockBelowCount)),
    (3, Ok(())),
    (3, Ok(())),
    (0, Ok(())),
    (15, Ok(())),
    (4, Ok(())),
    (5, Ok(())),
    (6, Ok(())),
    (7, Ok(())),
    (8, Ok(())),
    (9, Err(RoomToCondemn)),
    (8, Ok(())),
    (1 << 40, Err(BlockBelowCount)),
];

fn condemning(tally: &mut Tally) {
    let mut pocket = Pocket::new();
    let mut memory = [0; 8192];
    let mut image = Image::new(&mut memory);
    for (n, wanted) in CONDEMNED {
        tally.answers("condemning in a pocket", pocket.condemn(n), wanted);
        tally.answers("condemning in an image", image.condemn(n), wanted);
    }
    after_condemning(tally, "pocket after eight", &mut pocket);
    after_condemning(tally, "image after eight", &mut image);
}

// Blocks 0, 3 to 8 and 15 are dead.
fn after_condemning<S: Store>(tally: &mut Tally, name: &str, store: &mut S) {
    tally.answers(name, all_live(store), Err(BlockLive));
    tally.expect(name, block_in(all_live(store)), Some(0));
    for (n, wanted) in [
        (0, Err(BlockLive)),
        (1, Ok(())),
        (2, Ok(())),
        (3, Err(BlockLive)),
        (8, Err(BlockLive)),
        (9, Ok(())),
        (14, Ok(())),
        (15, Err(BlockLive)),
        (16, Err(BlockBelowCount)),
    ] {
        try_block(tally, name, store, n, wanted);
    }
}

// Block n is bytes 512·n to 512·n + 511 of the memory, and the bytes past the blocks are never touched.
fn memory_after(tally: &mut Tally) {
    let mut memory = [0x11; 1636];
    let mut image = Image::new(&mut memory);
    tally.answers("put", image.put(0, &[0x20; 512]), Ok(()));
    tally.answers("put", image.put(2, &[0x22; 512]), Ok(()));
    tally.answers("put", image.put(3, &[0x23; 512]), Err(BlockBelowCount));
    drop(image);
    for (place, byte) in [
        (0, 0x20),
        (511, 0x20),
        (512, 0x11),
        (1023, 0x11),
        (1024, 0x22),
        (1535, 0x22),
        (1536, 0x11),
        (1635, 0x11),
    ] {
        tally.expect("a byte of the memory", memory[place], byte);
    }
}

// The parts of a stripe show the blocks that were put in turn; the longer part keeps the rest.
fn turns(tally: &mut Tally) {
    let mut memory = [0; 1024];
    let mut stripe = Stripe::new(Pocket::new(), Image::new(&mut memory));
    for n in 0..5u8 {
        let wanted = if n < 4 { Ok(()) } else { Err(BlockBelowCount) };
        tally.answers(
            "put in turn",
            stripe.put(n as usize, &[0x30 + n; 512]),
            wanted,
        );
    }
    let (pocket, image) = stripe.into_parts();
    let mut buffer = [0; 512];
    for (n, byte) in [(0, 0x30), (1, 0x32), (2, 0), (15, 0)] {
        tally.answers("first part", pocket.fetch(n, &mut buffer), Ok(()));
        tally.expect("first part", buffer[0], byte);
    }
    for (n, byte) in [(0, 0x31), (1, 0x33)] {
        tally.answers("second part", image.fetch(n, &mut buffer), Ok(()));
        tally.expect("second part", buffer[511], byte);
    }
}

// A part's refusal names the block as the stripe numbers it.
fn renumbering(tally: &mut Tally) {
    let mut pocket = Pocket::new();
    tally.answers("condemn", pocket.condemn(2), Ok(()));
    let mut memory = [0; 2048];
    let mut image = Image::new(&mut memory);
    tally.answers("condemn", image.condemn(1), Ok(()));
    let mut stripe = Stripe::new(pocket, image);
    tally.expect("lowest dead", block_in(all_live(&stripe)), Some(3));
    for (n, wanted) in [
        (2, Ok(())),
        (3, Err(BlockLive)),
        (4, Err(BlockLive)),
        (5, Ok(())),
        (7, Ok(())),
        (8, Err(BlockBelowCount)),
    ] {
        try_block(tally, "refusals of a stripe", &mut stripe, n, wanted);
    }
    let mut deeper = Stripe::new(Pocket::new(), stripe);
    tally.expect("lowest dead", block_in(all_live(&deeper)), Some(7));
    for (n, wanted) in [
        (5, Ok(())),
        (7, Err(BlockLive)),
        (9, Err(BlockLive)),
        (11, Ok(())),
        (16, Err(BlockBelowCount)),
    ] {
        try_block(
            tally,
            "refusals of a stripe in a stripe",
            &mut deeper,
            n,
            wanted,
        );
    }
}

// Puts, fetches and asks block n, each to go as wanted.
fn try_block<S: Store>(tally: &mut Tally, name: &str, store: &mut S, n: usize, wanted: Outcome) {
    let named = wanted.err().map(|_| n);
    let put = store.put(n, &[0x5a; 512]);
    tally.expect(name, block_in(put), named);
    tally.answers(name, put, wanted);
    let mut buffer = [0xee; 512];
    let fetch = store.fetch(n, &mut buffer);
    tally.expect(name, block_in(fetch), named);
    tally.answers(name, fetch, wanted);
    let byte = if wanted.is_ok() { 0x5a } else { 0xee };
    tally.expect(name, buffer[0], byte);
    tally.expect(name, buffer[511], byte);
    tally.expect(name, store.live(n), wanted.is_ok());
}

// A store of `count` blocks, all of them live, at its edges and past them.
fn edges<S: Store>(tally: &mut Tally, name: &str, store: &mut S, count: usize) {
    tally.expect(name, store.count(), count);
    tally.answers(name, all_live(store), Ok(()));
    let cases = [
        (0, Ok(())),
        (count.saturating_sub(1), Ok(())),
        (count, Err(BlockBelowCount)),
        (1 << 40, Err(BlockBelowCount)),
    ];
    for (n, wanted) in cases {
        try_block(tally, name, store, n, wanted);
    }
}

fn all_edges(tally: &mut Tally) {
    edges(tally, "pocket", &mut Pocket::new(), 16);
    let mut one = [0; 512];
    edges(tally, "image of one block", &mut Image::new(&mut one), 1);
    let mut memory = [0; 1636];
    edges(
        tally,
        "image of three blocks and 100 bytes",
        &mut Image::new(&mut memory),
        3,
    );
    let mut short = [0; 1636];
    edges(
        tally,
        "stripe of unequal parts",
        &mut Stripe::new(Pocket::new(), Image::new(&mut short)),
        6,
    );
    let mut other = [0; 1636];
    let inner = Stripe::new(Image::new(&mut other), Pocket::new());
    edges(
        tally,
        "stripe of a stripe and a pocket",
        &mut Stripe::new(inner, Pocket::new()),
        12,
    )
}
