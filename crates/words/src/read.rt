// Words of a script: four bytes each, the least first.
ghost use Rattle.std.specs.Prelude.{◌≡◌, map, ◌+◌, ◌*◌, ◌≤◌, ◌<◌, length};
ghost use Rattle.fixed.specs.Integers.{signed};
ghost use Rattle.words.specs.Words.{raw_at, word_at, number_at, words_from};

use fixed::{Fixed, signed};

// A word as a natural below 2^32.
#[tactic(auto, unfolding(crate::specs::Words::raw_at))]
pub fn raw(script: &[u8], i: usize) -> u32
    requires { 4 * i + 4 ≤ length script.now }
    ensures { result ≡ raw_at script.now i }
{
    let at = 4 * i;
    u32::from_le_bytes([script[at], script[at + 1], script[at + 2], script[at + 3]])
}

// The same as an index, for counts, offsets and kinds.
pub fn natural(script: &[u8], i: usize) -> usize
    requires { 4 * i + 4 ≤ length script.now }
    ensures { (result ≡ raw_at script.now i) × (result < 4294967296) }
{
    raw(script, i) as usize
}

// A word as it is meant, signed.
pub fn word(script: &[u8], i: usize) -> i32
    requires { 4 * i + 4 ≤ length script.now }
    ensures { result ≡ word_at (raw_at script.now) i }
{
    signed(raw(script, i))
}

// A word as a number in 16.16.
pub fn number(script: &[u8], i: usize) -> Fixed
    requires { 4 * i + 4 ≤ length script.now }
    ensures { result ≡ number_at (raw_at script.now) i }
{
    let bits = word(script, i);
    Fixed { bits }
}

// The words of some bytes from word `first` on, as many as are lent.
pub fn read_words(bytes: &[u8], first: usize, words: &mut [i32])
    requires { 4 * (first + length words.old) ≤ length bytes.now }
    ensures { words.new ≡
        map signed (words_from (raw_at bytes.now) first (length words.old)) }
{
    for (i, lent) in words.iter_mut().enumerate() {
        *lent = word(bytes, first + i);
    }
}
