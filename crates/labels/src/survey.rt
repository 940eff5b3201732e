// One glyph before it is hinted: the first fault among its commands, or the words that they write.
ghost use Rattle.std.specs.Prelude.{◌≡◌, ◌<◌, ◌≤◌, ◌*◌, length, IfOk};
ghost use Rattle.labels.specs.Glyphs.{glyph};
ghost use Rattle.labels.specs.Measured.{survey_of};

use commands::{Command, fault_in, read_given};
use pen::Trail;
use words::Refusal;

// No map is built: kinds and character points alone decide how many words there are.
pub(crate) fn survey(words: &[i32], masks: &[u8]) -> Result<usize, Refusal>
    requires { (length words.now < 2147483648) × (length masks.now < 2147483648) }
    ensures { (result ≡ survey_of (glyph words.now masks.now)) ×
        IfOk result (λ n. n ≤ 10 * length words.now) }
{
    let bytes = masks.len();
    let mut trail = Trail::new();
    let mut count = 0;
    let mut at = 0;
    // A command says how many words it has, so the index goes by what is read.
    while at < words.len() {
        let read = read_given(words, at);
        let command = read.command;
        fault_in(command, bytes, at)?;
        at = read.next;
        let Command::Draw(path) = command else {
            continue;
        };
        let counted = trail.count(path);
        trail = counted.trail;
        count += counted.words;
    }
    Ok(count)
}
