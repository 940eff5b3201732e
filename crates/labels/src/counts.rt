// Whether the lengths are those of glyphs that fill both lists.
ghost use Rattle.std.specs.Prelude.{◌≡◌, ◌≤◌, ◌<◌, pos, length, get_or, drop};
ghost use Rattle.fixed.specs.Integers.{bits_of};
ghost use Rattle.words.specs.Words.{negative};
ghost use Rattle.labels.specs.Glyphs.{below0, any_negative, every_other, total, miscounted};

use fixed::bits_of;

// Two lengths a glyph.
const MAX_LENGTHS: usize = 128;

// A length as a count.
pub(crate) fn size_at(lengths: &[i32], i: usize) -> usize
    requires { i < length lengths.now }
    ensures { (result ≡ bits_of (get_or lengths.now i (pos 0))) × ((result < 4294967296) ×
        (below0 (get_or lengths.now i (pos 0)) ≡ negative result)) }
{
    bits_of(lengths[i]) as usize
}

fn any_negative(lengths: &[i32]) -> bool
    ensures { result ≡ any_negative lengths.now }
{
    lengths.iter().any(|length| *length < 0)
}

// The sum of every other length, from `first` on.
fn sum_from(lengths: &[i32], first: usize) -> usize
    requires { (length lengths.now ≤ 128) × (first ≤ 1) }
    ensures { result ≡ total (every_other (drop first lengths.now)) }
{
    let mut sum = 0;
    for i in (first..lengths.len()).step_by(2) {
        sum += size_at(lengths, i);
    }
    sum
}

#[tactic(auto, unfolding(crate::specs::Glyphs::miscounted))]
pub(crate) fn are_miscounted(lengths: &[i32], words: usize, bytes: usize) -> bool
    ensures { result ≡ miscounted lengths.now words bytes }
{
    MAX_LENGTHS < lengths.len()
        || lengths.len() % 2 == 1
        || any_negative(lengths)
        || sum_from(lengths, 0) != words
        || sum_from(lengths, 1) != bytes
}
