// What a call leaves and says, compared with what is stored.
ghost use Rattle.std.specs.Prelude.{◌≡◌, ◌≤◌, length};
ghost use Rattle.test_tables.specs.Differing.{first_different};
ghost use Rattle.test_writer.specs.Comparing.{same_byte, same_params};

use zones::HintParams;

// The first byte that differs from the stored one, or how many there are.
pub(crate) fn first_byte(left: &[u8], stored: &[u8]) -> usize
    requires { length left.now ≤ length stored.now }
    ensures { result ≡
        first_different (same_byte left.now stored.now) (length left.now) }
{
    for (i, byte) in left.iter().enumerate() {
        if *byte != stored[i] {
            return i;
        }
    }
    left.len()
}

// All numbers, counts and pairs, those past the counts too.
pub(crate) fn same_params(a: HintParams, b: HintParams) -> bool
    ensures { result ≡ same_params a b }
{
    a == b
}
