// Parameters from 64 words, each list at its own place, as a program in C hands them over.
ghost use Rattle.std.specs.Prelude.{◌≡◌, ◌+◌, ◌≤◌, pos, get_or};
ghost use Rattle.words.specs.Words.{given_word, number_at};
ghost use Rattle.header.specs.Params.{pair_at};
ghost use Rattle.writer.specs.ParamWords.{blues_in, params_in};

use fixed::{Fixed, bits_of};
use zones::{Blue, Blues, HintParams, MAX_BLUES};

// Where the numbers, the counts and the lists stand.
const BLUE_SCALE: usize = 0;

const BLUE_SHIFT: usize = 1;

const BLUE_FUZZ: usize = 2;

const LANGUAGE_GROUP: usize = 3;

const COUNTS: usize = 4;

const LISTS: usize = 8;

const LIST_WORDS: usize = 2 * MAX_BLUES;

// A word, or 0 where it is missing.
fn word_or_zero(words: &[i32], i: usize) -> i32
    ensures { result ≡ get_or words.now i (pos 0) }
{
    words.get(i).copied().unwrap_or(0)
}

fn number_or_zero(words: &[i32], i: usize) -> Fixed
    ensures { result ≡ number_at (given_word words.now) i }
{
    let bits = word_or_zero(words, i);
    Fixed { bits }
}

fn pair_from(words: &[i32], at: usize) -> Blue
    requires { at ≤ 64 }
    ensures { result ≡ pair_at (given_word words.now) at }
{
    let bottom = number_or_zero(words, at);
    let top = number_or_zero(words, at + 1);
    Blue { bottom, top }
}

// The seven pairs from word `first` on, whose count is word `count`.
fn blues_from(words: &[i32], first: usize, count: usize) -> Blues
    requires { first ≤ 50 }
    ensures { result ≡ blues_in (given_word words.now) first count }
{
    let pairs = [
        pair_from(words, first),
        pair_from(words, first + 2),
        pair_from(words, first + 4),
        pair_from(words, first + 6),
        pair_from(words, first + 8),
        pair_from(words, first + 10),
        pair_from(words, first + 12),
    ];
    let count = bits_of(word_or_zero(words, count)) as usize;
    Blues { pairs, count }
}

// The parameters. Words that are missing count as 0, and further ones are not read.
pub fn params_from(words: &[i32]) -> HintParams
    ensures { result ≡ params_in words.now }
{
    HintParams {
        blue_scale: number_or_zero(words, BLUE_SCALE),
        blue_shift: number_or_zero(words, BLUE_SHIFT),
        blue_fuzz: number_or_zero(words, BLUE_FUZZ),
        language_group: word_or_zero(words, LANGUAGE_GROUP),
        blues: blues_from(words, LISTS, COUNTS),
        other_blues: blues_from(words, LISTS + LIST_WORDS, COUNTS + 1),
        family_blues: blues_from(words, LISTS + 2 * LIST_WORDS, COUNTS + 2),
        family_other_blues: blues_from(words, LISTS + 3 * LIST_WORDS, COUNTS + 3),
    }
}
