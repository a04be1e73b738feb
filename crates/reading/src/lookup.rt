// Finding an entry of a directory by its name.
ghost use Rattle.std.specs.Prelude.{◌≡◌, ◌<◌, ◌≤◌, length};
ghost use Rattle.layout.specs.Entries.{entry_at};
ghost use Rattle.reading.specs.Lookups.{field_of, is_named, entry_named};

use volume::directory::Directory;

// The name field of a name: filled up with zeros. No From, since it asks that the name be short enough.
pub fn name_field(name: &[u8]) -> [u8; 14]
    requires { length name.now ≤ 14 }
    ensures { result ≡ field_of name.now }
{
    let mut field = [0; 14];
    field[..name.len()].copy_from_slice(name);
    field
}

// Whether entry e is used and has that name field.
fn is_named(directory: &Directory, field: &[u8; 14], e: usize) -> bool
    requires { e < 256 }
    ensures { result ≡ is_named (entry_at directory.now.bytes) field.now e }
{
    directory.is_used(e) && directory.entry(e).name == *field
}

// The first used entry with that name.
pub fn find_entry(directory: &Directory, name: &[u8]) -> Option<usize>
    requires { length name.now ≤ 14 }
    ensures { result ≡ entry_named (entry_at directory.now.bytes) directory.now.len name.now }
{
    let field = name_field(name);
    (0..directory.len).find(|e| is_named(directory, &field, *e))
}
