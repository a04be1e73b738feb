// An image store: the whole blocks of the caller's memory.
ghost use Rattle.std.specs.Prelude.{◌≡◌, []};
ghost use Rattle.store.specs.Images.{image_bytes, image_condemned};

use crate::plain::Plain;

pub type Image<'a> = Plain<&'a mut [u8]>;

impl<'a> Image<'a> {
    // An image over the memory, every block live.
    pub fn new(bytes: &'a mut [u8]) -> Image<'a>
        ensures memory { result.memory.ghost_name ≡ bytes.entry.ghost_name }
        ensures contents { image_bytes result ≡ bytes.old }
        ensures condemned { image_condemned result ≡ [] }
    {
        Plain::over(bytes)
    }
}
