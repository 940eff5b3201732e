// The result: the records of each glyph, run over a new drawing, with their place in the header.
ghost use Rattle.std.specs.Prelude.{◌≡◌, [], ◌∷◌, map, ◌+◌, ◌≤◌, ◌<◌, pos, length};
ghost use Rattle.zones.specs.Numbers.{state_in};
ghost use Rattle.pen.specs.Records.{written};
ghost use Rattle.words.specs.Bytes.{placed};
ghost use Rattle.labels.specs.Glyphs.{glyph, glyphs_of, records_of};
ghost use Rattle.labels.specs.Labels.{label_words};
ghost use Rattle.labels.specs.Measured.{Settable, GlyphSet, Fillable};

use crate::counts::size_at;
use crate::measure::FIXED_HEADER;
use run::{KeptLists, run_given};
use zones::{Gauge, HintState, ZONE_NUMBERS};

// What the first word of a result says.
const RESULT_VERSION: usize = 1;

// Two counts or offsets as words.
fn put_two(out: &mut [i32], i: usize, first: usize, second: usize)
    requires { (i + 2 ≤ length out.old) × ((first < 2147483648) × (second < 2147483648)) }
    ensures { out.new ≡ placed out.old i (pos first ∷ pos second ∷ []) }
{
    out[i] = first as i32;
    out[i + 1] = second as i32;
}

// A glyph's records from the next free word on, and their place in the header; how many words they
// have.
fn fill_glyph(
    masks: &[u8],
    words: &[i32],
    gauge: Gauge,
    zones: &[i32; ZONE_NUMBERS],
    lists: &mut KeptLists,
    out: &mut [i32],
    slot: usize,
    next: usize,
) -> usize
    requires { Settable (glyph words.now masks.now) slot next (length out.old) }
    ensures { GlyphSet (state_in gauge zones.now) (glyph words.now masks.now)
        slot next out.old result out.new }
{
    let ran = run_given(masks, words, gauge, zones, lists, &mut out[next..]);
    put_two(out, slot, next, ran.words);
    ran.words
}

// Glyphs that pass all tests, into an output that has room for them. The zones are listed once, and the
// lists for the hints serve one glyph behind the other.
pub(crate) fn fill(
    commands: &[i32],
    masks: &[u8],
    lengths: &[i32],
    state: HintState,
    out: &mut [i32],
)
    requires { Fillable lengths.now commands.now masks.now (length out.old) }
    ensures { out.new ≡ written (label_words (map (records_of state)
        (glyphs_of lengths.now commands.now masks.now))) out.old }
{
    let mut zones = [0i32; ZONE_NUMBERS];
    state.list(&mut zones);
    let gauge = state.gauge();
    let mut lists = KeptLists::new();
    put_two(out, 0, RESULT_VERSION, lengths.len() / 2);
    let mut next = FIXED_HEADER + lengths.len();
    let mut word = 0;
    let mut byte = 0;
    for glyph in 0..lengths.len() / 2 {
        let words_end = word + size_at(lengths, 2 * glyph);
        let bytes_end = byte + size_at(lengths, 2 * glyph + 1);
        let words = fill_glyph(
            &masks[byte..bytes_end],
            &commands[word..words_end],
            gauge,
            &zones,
            &mut lists,
            out,
            FIXED_HEADER + 2 * glyph,
            next,
        );
        next += words;
        word = words_end;
        byte = bytes_end;
    }
}
