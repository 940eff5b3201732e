// Words that a call leaves, compared with those that are stored.
ghost use Rattle.std.specs.Prelude.{◌≡◌, ◌*◌, ◌≤◌, length};
ghost use Rattle.test_tables.specs.Differing.{first_word};

use fixed::Fixed;
use words::number;

// The first word that differs from the stored one, or how many there are. Words are stored as bytes.
pub fn first_word(left: &[i32], stored: &[u8]) -> usize
    requires { 4 * length left.now ≤ length stored.now }
    ensures { result ≡ first_word left.now stored.now }
{
    for (i, bits) in left.iter().enumerate() {
        let differs = number(stored, i) != (Fixed { bits: *bits });
        if differs {
            return i;
        }
    }
    left.len()
}
