// Words stored as bytes, and bytes copied.
ghost use Rattle.std.specs.Prelude.{◌≡◌, [], ◌∷◌, map, ◌+◌, ◌*◌, ◌≤◌, length};
ghost use Rattle.fixed.specs.Integers.{bits_of};
ghost use Rattle.words.specs.Bytes.{laid, over};

use fixed::bits_of;

// A word's four bytes, the least first.
#[tactic(auto, unfolding(crate::specs::Bytes::laid, crate::specs::Bytes::bytes_of))]
pub fn store(bytes: &mut [u8], i: usize, word: u32)
    requires { 4 * i + 4 ≤ length bytes.old }
    ensures { bytes.new ≡ laid bytes.old i (word ∷ []) }
{
    let at = 4 * i;
    bytes[at..at + 4].copy_from_slice(&word.to_le_bytes());
}

// Some words, from word `first` on.
pub fn store_words(bytes: &mut [u8], first: usize, words: &[i32])
    requires { 4 * first + 4 * length words.now ≤ length bytes.old }
    ensures { bytes.new ≡ laid bytes.old first (map bits_of words.now) }
{
    for (i, word) in words.iter().enumerate() {
        store(bytes, first + i, bits_of(*word));
    }
}

// Bytes at the start of what is lent, whose rest stands.
#[tactic(auto, unfolding(crate::specs::Bytes::over))]
pub fn copy_bytes(bytes: &[u8], out: &mut [u8])
    requires { length bytes.now ≤ length out.old }
    ensures { out.new ≡ over bytes.now out.old }
{
    out[..bytes.len()].copy_from_slice(bytes);
}
