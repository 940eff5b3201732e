// All glyphs before any is hinted: the first fault, or the first that does not fit, or the words of
// the result.
ghost use Rattle.std.specs.Prelude.{◌≡◌, false, ◌<◌, length};
ghost use Rattle.labels.specs.Glyphs.{glyphs_of, miscounted};
ghost use Rattle.labels.specs.Measured.{taken_by, measured_of};

use crate::counts::size_at;
use crate::label_answer::{LabelAnswer, LabelRefusal, in_glyph};
use crate::survey::survey;

// The words before the records that do not depend on the lengths.
pub(crate) const FIXED_HEADER: usize = 2;

// The words of the header and of the glyphs up to one: the last so far, or the first that ends past
// the room.
#[derive(Clone, Copy)]
pub struct Taken {
    pub words: usize,
    pub glyph: usize,
}

impl Taken {
    // One glyph more, if those before it fit.
    #[tactic(auto, unfolding(crate::specs::Measured::taken_by))]
    fn with(self, words: usize, room: usize) -> Taken
        requires { (self.words < 34359738368) × ((words < 34359738368) × (self.glyph < 128)) }
        ensures { result ≡ taken_by self words room }
    {
        if room < self.words {
            return self;
        }
        Taken {
            words: self.words + words,
            glyph: self.glyph + 1,
        }
    }
}

pub(crate) fn measure(commands: &[i32], masks: &[u8], lengths: &[i32], room: usize) -> LabelAnswer
    requires { (miscounted lengths.now (length commands.now) (length masks.now) ≡ false) ×
        (room < 2147483648) }
    ensures { result ≡ measured_of (glyphs_of lengths.now commands.now masks.now)
        room }
{
    let header = FIXED_HEADER + lengths.len();
    let mut taken = Taken {
        words: header,
        glyph: 0,
    };
    let mut word = 0;
    let mut byte = 0;
    for glyph in 0..lengths.len() / 2 {
        let words_end = word + size_at(lengths, 2 * glyph);
        let bytes_end = byte + size_at(lengths, 2 * glyph + 1);
        let words = match survey(&commands[word..words_end], &masks[byte..bytes_end]) {
            Ok(words) => words,
            Err(fault) => return in_glyph(glyph + 1, fault),
        };
        taken = taken.with(words, room);
        word = words_end;
        byte = bytes_end;
    }
    if room < taken.words {
        return Err(LabelRefusal::NoRoom(taken.glyph));
    }
    Ok(taken.words)
}
