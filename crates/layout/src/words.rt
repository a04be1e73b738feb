// Words of 16 bits, low byte first.
ghost use Rattle.std.specs.Prelude.{◌≡◌, ◌+◌, ◌*◌, ◌/◌, ◌%◌, ◌<◌, ◌≤◌, length};
ghost use Rattle.layout.specs.Words.{word_at, words_at, with_word};

use store::interface::Block;

pub fn low(word: u16) -> u8
    ensures { result ≡ word % 256 }
{
    let [low, _] = word.to_le_bytes();
    low
}

pub fn high(word: u16) -> u8
    ensures { result ≡ word / 256 }
{
    let [_, high] = word.to_le_bytes();
    high
}

// The word whose low byte is at that place.
pub fn word_at(bytes: &[u8], at: usize) -> u16
    requires { at + 1 < length bytes.now }
    ensures { result ≡ word_at bytes.now at }
{
    u16::from_le_bytes([bytes[at], bytes[at + 1]])
}

// Fills the list with the words from that place on.
pub fn read_words(block: &Block, at: usize, words: &mut [u16])
    requires { at + 2 * length words.old ≤ 512 }
    ensures { words.new ≡ words_at (length words.old) block.now at }
{
    for (j, word) in words.iter_mut().enumerate() {
        *word = word_at(block, at + 2 * j);
    }
}

// Writes a word there.
pub fn set_word(block: &mut Block, at: usize, word: u16)
    requires { at + 1 < 512 }
    ensures { block.new ≡ with_word block.old at word }
{
    [block[at], block[at + 1]] = word.to_le_bytes();
}
