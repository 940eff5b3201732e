// Masks. The expected values are those of model/stems.py.
ghost use Rattle.std.specs.Prelude.{◌≤◌};

use std::io;
use std::io::Read;
use stems::HintMask;

pub(crate) fn run<R: Read>(rt: &impl Print, input: &mut R) -> io::Result<()> {
    test_tables::run_table(rt, input, "masks", mask_agrees)?;
    test_tables::run_table(rt, input, "same masks", same_agrees)
}

// A row: a count and so many bytes, the mask's 12 bytes; a bit, 1 if it is active, and the 12 bytes
// once it is cleared.
fn mask_agrees(row: &[i32]) -> bool {
    let n = test_tables::count(row, 1, 13);
    let mask = test_tables::mask(row, 1);
    let bit = test_tables::count(row, 14 + n, 95);
    same_bytes(mask, row, 2 + n)
        && mask.get(bit) == test_tables::flag(row, 15 + n)
        && same_bytes(mask.clear(bit), row, 16 + n)
}

// A row: two counts, each with its bytes, and 1 if the masks are the same.
fn same_agrees(row: &[i32]) -> bool {
    let n = test_tables::count(row, 1, 13);
    let m = test_tables::count(row, 2 + n, 13);
    let same = test_tables::mask(row, 1).same(test_tables::mask(row, 2 + n));
    same == test_tables::flag(row, 3 + n + m)
}

// The mask's bytes are the 12 from `at` on.
fn same_bytes(mask: HintMask, row: &[i32], at: usize) -> bool
    requires { at ≤ 29 }
{
    mask.bytes.iter().enumerate().all(|(i, byte)| *byte as usize
        == test_tables::count(row, at + i, 255))
}
