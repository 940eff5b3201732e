// The tests of the header and of the parameters, in 01's order.
ghost use Rattle.std.specs.Prelude.{◌≡◌, ◌≤◌, length, drop};
ghost use Rattle.words.specs.Words.{raw_at};
ghost use Rattle.words.specs.Answers.{Says, first_of};
ghost use Rattle.header.specs.Header.{length_bad, all_zero, header_rows};
ghost use Rattle.header.specs.Params.{param_rows};

use words::{Answer, Refusal, layout, natural, number};
use zones::MAX_BLUES;

#[tactic(auto, unfolding(crate::specs::Header::length_bad))]
fn length_bad(bytes: usize) -> bool
    ensures { result ≡ length_bad bytes }
{
    bytes < layout::MIN_SCRIPT_BYTES || layout::MAX_SCRIPT_BYTES < bytes || bytes % 4 != 0
}

// Whether the bytes from `at` on are zeros.
fn all_zero(script: &[u8], at: usize) -> bool
    requires { at ≤ length script.now }
    ensures { result ≡ all_zero (drop at script.now) }
{
    script[at..].iter().all(|&byte| byte == 0)
}

// The header: a word that is negative is, as a natural, past every end.
#[tactic(auto, using(crate::proofs::Tests::long))]
pub fn check_header(script: &[u8]) -> Answer
    ensures { Says (first_of (header_rows script.now)) result }
{
    let bytes = script.len();
    if length_bad(bytes) {
        return Err(Refusal::BadScript(0));
    }
    if natural(script, layout::VERSION) != layout::VERSION_ONE {
        return Err(Refusal::BadScript(layout::VERSION));
    }
    if natural(script, layout::PARAMS_START) != layout::HEADER_WORDS {
        return Err(Refusal::BadScript(layout::PARAMS_START));
    }
    let params = natural(script, layout::PARAMS_COUNT);
    if params < layout::MIN_PARAMS || layout::MAX_PARAMS < params {
        return Err(Refusal::BadScript(layout::PARAMS_COUNT));
    }
    let commands = natural(script, layout::COMMANDS_START);
    if commands != layout::HEADER_WORDS + params {
        return Err(Refusal::BadScript(layout::COMMANDS_START));
    }
    let count = natural(script, layout::COMMANDS_COUNT);
    if bytes / 4 < commands + count {
        return Err(Refusal::BadScript(layout::COMMANDS_COUNT));
    }
    let masks = natural(script, layout::MASKS_START);
    if masks != commands + count {
        return Err(Refusal::BadScript(layout::MASKS_START));
    }
    let mask_bytes = natural(script, layout::MASKS_COUNT);
    if masks + (mask_bytes + 3) / 4 != bytes / 4 {
        return Err(Refusal::BadScript(layout::MASKS_COUNT));
    }
    if !all_zero(script, 4 * masks + mask_bytes) {
        return Err(Refusal::BadScript(layout::MASKS_COUNT));
    }
    Ok(())
}

// The scale, the four counts, and the number of parameters against the pairs.
pub fn check_params(script: &[u8]) -> Answer
    requires { 64 ≤ length script.now }
    ensures { Says (first_of (param_rows (raw_at script.now))) result }
{
    if number(script, layout::SCALE).bits < 1 {
        return Err(Refusal::BadScale);
    }
    let blues = natural(script, layout::BLUES_COUNT);
    if MAX_BLUES < blues {
        return Err(Refusal::BadBlues(layout::BLUES_COUNT));
    }
    let others = natural(script, layout::OTHER_BLUES_COUNT);
    if MAX_BLUES < others {
        return Err(Refusal::BadBlues(layout::OTHER_BLUES_COUNT));
    }
    let family = natural(script, layout::FAMILY_BLUES_COUNT);
    if MAX_BLUES < family {
        return Err(Refusal::BadBlues(layout::FAMILY_BLUES_COUNT));
    }
    let family_others = natural(script, layout::FAMILY_OTHER_BLUES_COUNT);
    if MAX_BLUES < family_others {
        return Err(Refusal::BadBlues(layout::FAMILY_OTHER_BLUES_COUNT));
    }
    if natural(script, layout::PARAMS_COUNT)
        != layout::MIN_PARAMS + 2 * (blues + others + family + family_others)
    {
        return Err(Refusal::BadScript(layout::PARAMS_COUNT));
    }
    Ok(())
}
