// The kinds of inodes that a sound volume has.
ghost use Rattle.std.specs.Prelude.{◌≡◌};
ghost use Rattle.volume.specs.Rules.{is_directory, is_plain_file};

use layout::inode::Inode;

// A directory of 2 to 256 whole entries, linked twice.
pub(crate) fn is_directory(inode: &Inode) -> bool
    ensures { result ≡ is_directory inode.now }
{
    inode.mode & 0xf000 == 0xc000
        && inode.links == 2
        && (32..=4096).contains(&inode.size)
        && inode.size % 16 == 0
}

// A plain file of at most 4,096 bytes, linked once.
pub(crate) fn is_plain_file(inode: &Inode) -> bool
    ensures { result ≡ is_plain_file inode.now }
{
    inode.mode & 0xf000 == 0x8000 && inode.links == 1 && inode.size <= 4096
}
