// Price books kept as files of a volume in a plain store.
use crate::books::{LIMITS, OFFER, OFFER_OF_MAY};
use crate::telling::{tell, text_of};
use allotment::format::format;
use anyhow::ensure;
use reading::list::{FileRecord, list};
use reading::read::read;
use store::image::Image;
use store::interface::Store;
use volume::check::check;
use writing::create::create;
use writing::remove::remove;
use writing::write::write;

const NO_RECORD: FileRecord = FileRecord {
    name: [0; 14],
    inode: 0,
    size: 0,
};

// A volume of forty blocks in memory: formatted, filled, listed, read, rewritten, and cleared of one file.
pub fn keep_books(rt: &HostRuntime) -> anyhow::Result<()> {
    let mut memory = vec![in rt.alloc(); 0xa5u8; 20_480]?;
    let mut image = Image::new(memory.as_mut_slice());
    tell_rule(rt, &image)?;
    format(&mut image, 2)?;
    let count = image.count();
    println!(rt; "Formatted: a volume of {count} blocks, two of them for inodes.")?;
    fill(rt, &mut image)?;
    change(rt, &mut image)?;
    refusals(rt, &mut image)?;
    tell_rule(rt, &image)
}

// What the check says of the volume.
fn tell_rule<S: Store>(rt: &HostRuntime, store: &S) -> anyhow::Result<()> {
    match check(store)? {
        None => println!(rt; "Checked: the volume is sound.")?,
        Some(rule) => {
            let number = rule.number();
            println!(rt; "Checked: the volume breaks rule S{number}.")?
        }
    }
    Ok(())
}

fn keep<S: Store>(rt: &HostRuntime, store: &mut S, name: &str, text: &str) -> anyhow::Result<()> {
    write(store, name.as_bytes(), text.as_bytes())?;
    let len = text.len();
    println!(rt; "  {name}: {len} bytes written")?;
    Ok(())
}

fn fill<S: Store>(rt: &HostRuntime, store: &mut S) -> anyhow::Result<()> {
    create(store, b"offer")?;
    create(store, b"limits")?;
    keep(rt, store, "offer", OFFER)?;
    keep(rt, store, "limits", LIMITS)?;
    show_files(rt, store)?;
    compare(rt, store, "offer", OFFER)?;
    compare(rt, store, "limits", LIMITS)
}

fn change<S: Store>(rt: &HostRuntime, store: &mut S) -> anyhow::Result<()> {
    println!(rt; "The offer rewritten for May, the limits removed:")?;
    keep(rt, store, "offer", OFFER_OF_MAY)?;
    remove(store, b"limits")?;
    show_files(rt, store)?;
    compare(rt, store, "offer", OFFER_OF_MAY)
}

fn refusals<S: Store>(rt: &HostRuntime, store: &mut S) -> anyhow::Result<()> {
    println!(rt; "Refused:")?;
    tell(rt, "create offer", create(store, b"offer"))?;
    tell(rt, "create a/b", create(store, b"a/b"))?;
    tell(rt, "remove limits", remove(store, b"limits"))?;
    tell(rt, "write 4097 bytes", write(store, b"offer", &[0; 4097]))?;
    tell(
        rt,
        "read offer into 10 bytes",
        read(store, b"offer", &mut [0; 10]),
    )?;
    Ok(())
}

// The files in the order of the directory.
fn show_files<S: Store>(rt: &HostRuntime, store: &S) -> anyhow::Result<()> {
    let mut records = [NO_RECORD; 16];
    let count = list(store, &mut records)?;
    println!(rt; "Listed, {count}:")?;
    for record in records.iter().take(count) {
        show(rt, record)?;
    }
    Ok(())
}

fn show(rt: &HostRuntime, record: &FileRecord) -> anyhow::Result<()> {
    let name = text_of(rt.alloc(), &record.name)?;
    let inode = record.inode;
    let size = record.size;
    println!(rt; "  {name:<14} inode {inode}, {size} bytes")?;
    Ok(())
}

// Reads the file, and compares it with the text that was written.
fn compare<S: Store>(rt: &HostRuntime, store: &S, name: &str, text: &str) -> anyhow::Result<()> {
    let mut buffer = [0; 4096];
    let size = read(store, name.as_bytes(), &mut buffer)?;
    ensure!(
        buffer.get(..size) == Some(text.as_bytes()),
        "a file read back is not the file that was written"
    );
    println!(rt; "  {name} read back: the same {size} bytes")?;
    Ok(())
}
