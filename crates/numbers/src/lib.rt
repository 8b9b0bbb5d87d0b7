// Numbers of four bytes in a lent buffer, the low byte first, and words of eight.
#![tactic(auto)]

ghost use Rattle.std.specs.Prelude.{◌≡◌, ◌+◌, ◌≤◌, length};
ghost use Rattle.layout.specs.Layout.{number_size};
ghost use Rattle.rules.specs.Number.{low_first};
ghost use Rattle.rules.specs.Log.{word_size};
ghost use Rattle.numbers.specs.Numbers.{NumberPut, WordPut};

// The number that stands at a place.
pub fn number_at(buffer: &[u8], at: usize) -> u32
    requires { at + number_size ≤ length buffer.now }
    ensures { result ≡ low_first number_size buffer.now at }
{
    u32::from_le_bytes(buffer[at..at + 4].try_into().unwrap())
}

// Writes a number at a place.
pub fn put_number(buffer: &mut [u8], at: usize, number: u32)
    requires { at + number_size ≤ length buffer.old }
    ensures { NumberPut buffer.old at number buffer.new }
{
    buffer[at..at + 4].copy_from_slice(&number.to_le_bytes());
}

// The word that stands at a place.
pub fn word_at(buffer: &[u8], at: usize) -> u64
    requires { at + word_size ≤ length buffer.now }
    ensures { result ≡ low_first word_size buffer.now at }
{
    u64::from_le_bytes(buffer[at..at + 8].try_into().unwrap())
}

// Writes a word at a place.
pub fn put_word(buffer: &mut [u8], at: usize, word: u64)
    requires { at + word_size ≤ length buffer.old }
    ensures { WordPut buffer.old at word buffer.new }
{
    buffer[at..at + 8].copy_from_slice(&word.to_le_bytes());
}
