// What a plain store lies in: bytes of the caller's, or of its own.
ghost use Rattle.std.specs.Prelude.{◌≡◌, ◌<◌, length};
ghost use Rattle.std.specs.Borrow.{GName};
ghost use Rattle.store.specs.Plain.{whole_blocks, Overwritten};

use crate::interface::{BLOCK_SIZE, Block};
use std::convert::AsSlice;

// `reference` names the caller's reference that the bytes lie behind, and is 0 of bytes that are held by value.
pub trait Memory: AsSlice<u8> {
    ghost reference: { Self → GName };

    // Makes block n equal to the contents, and touches no other byte.
    fn put_block(&mut self, n: usize, contents: &Block)
        requires { n < whole_blocks (length (Self.items self.old)) }
        ensures reference { reference self.new ≡ reference self.old }
        ensures bytes { Overwritten n contents.now (Self.items self.old) (Self.items self.new) };
}

impl Memory for &mut [u8] {
    ghost reference = { λ m. m.ghost_name };

    fn put_block(&mut self, n: usize, contents: &Block) {
        overwrite(self, n, contents);
    }
}

impl<const N: usize> Memory for [u8; N] {
    ghost reference = { λ _. 0 };

    fn put_block(&mut self, n: usize, contents: &Block) {
        overwrite(&mut self[..], n, contents);
    }
}

fn overwrite(memory: &mut [u8], n: usize, contents: &Block)
    requires { n < whole_blocks (length memory.old) }
    ensures { Overwritten n contents.now memory.old memory.new }
{
    let start = BLOCK_SIZE * n;
    memory[start..start + BLOCK_SIZE].copy_from_slice(contents);
}
