// The entries of a directory, against the rules of a sound volume.
ghost use Rattle.std.specs.Prelude.{◌≡◌, ◌<◌, ◌≤◌, ◌&&◌};
ghost use Rattle.std.specs.Str.{bytes_eq};
ghost use Rattle.layout.specs.Entries.{entry_at};
ghost use Rattle.volume.specs.Directories.{good_dots, used, new_name, well_named, numbered, entries_for};
ghost use Rattle.volume.specs.Every.{every};
ghost use Rattle.volume.specs.Maps.{numbered_by};

use layout::entry::Entry;
use layout::name::is_lawful_field;

// The name fields "." and "..".
const DOT: [u8; 14] = *b".\0\0\0\0\0\0\0\0\0\0\0\0\0";

const DOTS: [u8; 14] = *b"..\0\0\0\0\0\0\0\0\0\0\0\0";

// The blocks of a directory with zeros behind them, and how many entries it has.
#[derive(Clone, Copy)]
pub struct Directory {
    pub bytes: [u8; 4096],
    pub len: usize,
    pub ghost few: { len ≤ 256 },
}

impl Directory {
    // Entry e, which may stand behind those that the directory has. That e is below 256 stays a clause here and below: a type for the place of an
    // entry would be made and taken apart at each use.
    pub fn entry(&self, e: usize) -> Entry
        requires { e < 256 }
        ensures { result ≡ entry_at self.now.bytes e }
    {
        Entry::decode(&self.bytes, e)
    }

    // Whether the first two entries are "." and "..", both for inode 1.
    pub(crate) fn has_good_dots(&self) -> bool
        ensures { result ≡ good_dots (entry_at self.now.bytes) }
    {
        let first = self.entry(0);
        let second = self.entry(1);
        first.is_for(1, &DOT) && second.is_for(1, &DOTS)
    }

    // Whether entry e is a later one that is not empty.
    pub fn is_used(&self, e: usize) -> bool
        requires { e < 256 }
        ensures { result ≡ used (entry_at self.now.bytes) e }
    {
        2 <= e && self.entry(e).inode != 0
    }

    // Whether entry k is used and has that name field. It is asked of each pair of entries, and slices are compared several bytes at a time.
    fn has_name(&self, name: &[u8; 14], k: usize) -> bool
        requires { k < 256 }
        ensures { result ≡ (used (entry_at self.now.bytes) k && bytes_eq (entry_at self.now.bytes k).name name.now) }
    {
        self.is_used(k) && self.entry(k).name[..] == name[..]
    }

    // Whether no earlier used entry has the name of entry e.
    fn is_new_name(&self, e: usize) -> bool
        requires { e < 256 }
        ensures { result ≡ new_name (entry_at self.now.bytes) e }
    {
        let name = self.entry(e).name;
        (0..e).all(|k| !self.has_name(&name, k))
    }

    // Whether entry e, if it is used, has a lawful name that no earlier one has.
    fn is_well_named(&self, e: usize) -> bool
        requires { e < 256 }
        ensures { result ≡ well_named (entry_at self.now.bytes) e }
    {
        !self.is_used(e) || (is_lawful_field(&self.entry(e).name) && self.is_new_name(e))
    }

    // Whether each entry is well named.
    pub(crate) fn is_all_well_named(&self) -> bool
        ensures { result ≡ every self.now.len (well_named (entry_at self.now.bytes)) }
    {
        (0..self.len).all(|e| self.is_well_named(e))
    }

    // Whether entry e, if it is used, has a number from 2 to the limit that the map has as allocated.
    fn is_numbered_by(&self, map: &[bool; 1553], limit: usize, e: usize) -> bool
        requires limit_bound { limit < 1553 }
        requires e_bound { e < 256 }
        ensures { result ≡ numbered_by map.now limit (entry_at self.now.bytes) e }
    {
        let number = self.entry(e).inode as usize;
        !self.is_used(e) || ((2..=limit).contains(&number) && map[number])
    }

    // Whether each entry is numbered so.
    pub(crate) fn is_all_numbered_by(&self, map: &[bool; 1553], limit: usize) -> bool
        requires { limit < 1553 }
        ensures { result ≡ every self.now.len (numbered_by map.now limit (entry_at self.now.bytes)) }
    {
        (0..self.len).all(|e| self.is_numbered_by(map, limit, e))
    }

    // Whether entry e is used and has the number i.
    fn is_numbered(&self, i: usize, e: usize) -> bool
        requires { e < 256 }
        ensures { result ≡ numbered (entry_at self.now.bytes) i e }
    {
        self.is_used(e) && self.entry(e).inode as usize == i
    }

    // How many of the entries are used and have the number i.
    pub(crate) fn entries_for(&self, i: usize) -> usize
        ensures { result ≡ entries_for (entry_at self.now.bytes) self.now.len i }
    {
        (0..self.len).filter(|e| self.is_numbered(i, *e)).count()
    }
}
