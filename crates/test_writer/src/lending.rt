// What is lent to a call: buffers in which every byte and every word would show if it changed.
ghost use Rattle.std.specs.Prelude.{◌≡◌, length};
ghost use Rattle.test_writer.specs.Lending.{filled, lent_byte, lent_word};

use fixed::signed;

// Each byte is so much more than the one before it; a word likewise, and the first is so many times
// the fill.
const BYTE_STEP: u8 = 37;

const WORD_STEP: u32 = 0x9E37_79B1;

const WORD_FACTOR: u32 = 16_777_619;

pub(crate) fn lend_bytes(out: &mut [u8], fill: u8)
    ensures { out.new ≡ filled (lent_byte fill) (length out.old) }
{
    let mut byte = fill;
    for place in out.iter_mut() {
        *place = byte;
        byte = byte.wrapping_add(BYTE_STEP);
    }
}

pub(crate) fn lend_words(out: &mut [i32], fill: u8)
    ensures { out.new ≡ filled (lent_word fill) (length out.old) }
{
    let mut bits = fill as u32 * WORD_FACTOR;
    for place in out.iter_mut() {
        *place = signed(bits);
        bits = bits.wrapping_add(WORD_STEP);
    }
}
