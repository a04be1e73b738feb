// A directory entry: 16 bytes, an inode number and a name field.
ghost use Rattle.std.specs.Prelude.{◌≡◌, ◌<◌};
ghost use Rattle.layout.specs.Entries.{entry_at, is_entry};

use crate::name::MAX_NAME;
use crate::words::word_at;

// The bytes of an entry.
pub const ENTRY_SIZE: usize = 16;

// An inode number of 0 marks an empty entry. The name is filled up with zeros.
#[derive(Clone, Copy, Debug, PartialEq, Eq)]
pub struct Entry {
    pub inode: u16,
    pub name: [u8; 14],
}

impl Entry {
    // Entry e of a directory's bytes. No From, since e must be below 256.
    pub fn decode(directory: &[u8; 4096], e: usize) -> Entry
        requires { e < 256 }
        ensures { result ≡ entry_at directory.now e }
    {
        let start = ENTRY_SIZE * e;
        let mut name = [0; 14];
        name.copy_from_slice(&directory[start + 2..start + 2 + MAX_NAME]);
        Entry {
            inode: word_at(directory, start),
            name,
        }
    }

    // Whether it is an entry for that inode, with that name field.
    pub fn is_for(&self, inode: u16, name: &[u8; 14]) -> bool
        ensures { result ≡ is_entry inode name.now self.now }
    {
        *self == Entry { inode, name: *name }
    }
}
