// Lists of block numbers.
ghost use Rattle.std.specs.Prelude.{◌≡◌, ◌<◌, length};
ghost use Rattle.volume.specs.Numbers.{is_new, different, all_data};

use layout::superblock::DataBlocks;

// Whether the number at place j stands at no earlier place.
fn is_new(numbers: &[u16], j: usize) -> bool
    requires { j < length numbers.now }
    ensures { result ≡ is_new numbers.now j }
{
    !numbers[..j].contains(&numbers[j])
}

// Whether no number stands twice.
pub(crate) fn are_different(numbers: &[u16]) -> bool
    ensures { result ≡ different numbers.now }
{
    (0..numbers.len()).all(|j| is_new(numbers, j))
}

// Whether each is a data block.
pub(crate) fn are_data(numbers: &[u16], data_blocks: DataBlocks) -> bool
    ensures { result ≡ all_data data_blocks.isize data_blocks.count numbers.now }
{
    numbers.iter().all(|number| data_blocks.contains(*number))
}
