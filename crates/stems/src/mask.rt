// Which stems are active: a bit for each, the most significant bit of the first byte for stem 0.
ghost use Rattle.std.specs.Prelude.{◌≡◌, true, not, ◌==◌, [], ◌∷◌, ◌-◌, ◌<◌, ◌%◌, ◌^◌, position};
ghost use Rattle.stems.specs.Edge.{max_hints};
ghost use Rattle.stems.specs.Mask.{of_bytes, all_active, mask_of, is_active, first_from, cleared, TookFirst, same_mask};

use crate::edge::MAX_HINTS;

// A bit for each of `MAX_HINTS` stems.
pub const HINT_MASK_SIZE: usize = 12;

#[derive(Clone, Copy, Debug, PartialEq, Eq)]
pub struct HintMask {
    pub bytes: [u8; HINT_MASK_SIZE],
}

// Ports `msb_mask`.
fn msb_mask(bit: usize) -> u8
    ensures { result ≡ 2 ^ (7 - bit % 8) }
{
    128u8 >> (bit % 8)
}

// Whether a stem is active in a mask's bytes.
#[tactic(auto, unfolding(crate::specs::Mask::is_active))]
pub fn is_active(bytes: &[u8; HINT_MASK_SIZE], bit: usize) -> bool
    requires { bit < max_hints }
    ensures { result ≡ is_active (of_bytes bytes.now) bit }
{
    let byte = bytes[bit / 8];
    (byte >> (7 - bit % 8)) % 2 == 1
}

// An active stem is cleared in a mask's bytes.
pub fn clear_active(bytes: &mut [u8; HINT_MASK_SIZE], bit: usize)
    requires { (bit < max_hints) × (is_active (of_bytes bytes.old) bit ≡ true) }
    ensures { of_bytes bytes.new ≡ cleared (of_bytes bytes.old) bit }
{
    let byte = bytes[bit / 8];
    bytes[bit / 8] = byte - msb_mask(bit);
}

// The first bit that is set in a byte, the most significant being bit 0, or 8.
fn first_set(byte: u8) -> usize
    ensures { result ≡ first_from (of_bytes (byte ∷ [])) 0 8 }
{
    u8::leading_zeros(byte) as usize
}

// The first byte of a mask that has an active stem.
fn first_byte(bytes: &[u8; HINT_MASK_SIZE]) -> Option<usize>
    ensures { result ≡ position (λ byte. not (byte == 0)) bytes.now }
{
    bytes.iter().position(|byte| *byte != 0)
}

// Takes the first active stem out of a mask's bytes: gives its number and clears its bit. Gives 96
// where no stem is active.
pub fn take_first(bytes: &mut [u8; HINT_MASK_SIZE]) -> usize
    ensures { TookFirst (of_bytes bytes.old) result (of_bytes bytes.new) }
{
    match first_byte(bytes) {
        Some(k) => {
            let stem = 8 * k + first_set(bytes[k]);
            clear_active(bytes, stem);
            stem
        }
        None => MAX_HINTS,
    }
}

impl HintMask {
    // Ports `HintMask::all`.
    pub fn all() -> HintMask
        ensures { result ≡ all_active }
    {
        HintMask {
            bytes: [255; HINT_MASK_SIZE],
        }
    }

    // Ports `HintMask::new`; over twelve bytes, where that returns `None`, all stems are active.
    #[tactic(auto, unfolding(crate::specs::Mask::mask_of))]
    pub fn new(bytes: &[u8]) -> HintMask
        ensures { result ≡ mask_of bytes.now }
    {
        let n = bytes.len();
        if HINT_MASK_SIZE < n {
            return HintMask::all();
        }
        let mut copy = [0u8; HINT_MASK_SIZE];
        copy[..n].copy_from_slice(bytes);
        HintMask { bytes: copy }
    }

    // Ports `HintMask::get`. No stem past the last bit is active.
    pub fn get(self, bit: usize) -> bool
        ensures { result ≡ is_active self bit }
    {
        bit < MAX_HINTS && is_active(&self.bytes, bit)
    }

    // Ports `HintMask::clear`.
    #[tactic(auto, unfolding(crate::specs::Mask::cleared))]
    pub fn clear(self, bit: usize) -> HintMask
        ensures { result ≡ cleared self bit }
    {
        if !self.get(bit) {
            return self;
        }
        let mut bytes = self.bytes;
        clear_active(&mut bytes, bit);
        HintMask { bytes }
    }

    // All 96 bits are the same.
    #[tactic(auto, unfolding(crate::specs::Mask::same_bytes))]
    pub fn same(self, other: HintMask) -> bool
        ensures { result ≡ same_mask self other }
    {
        self == other
    }
}
