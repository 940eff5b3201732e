// Reading the parameters of a script whose header and counts are fine.
ghost use Rattle.std.specs.Prelude.{◌≡◌, ◌+◌, ◌*◌, ◌≤◌, length};
ghost use Rattle.words.specs.Words.{raw_at};
ghost use Rattle.header.specs.Params.{pair_at, blues_at, params_of, WholeParams};
ghost use Rattle.zones.specs.Zones.{max_blues};

use fixed::Fixed;
use words::{layout, natural, number, word};
use zones::{Blue, Blues, HintParams, MAX_BLUES};

fn pair(script: &[u8], at: usize) -> Blue
    requires { 4 * at + 8 ≤ length script.now }
    ensures { result ≡ pair_at (raw_at script.now) at }
{
    let bottom = number(script, at);
    let top = number(script, at + 1);
    Blue { bottom, top }
}

// So many pairs from a word on.
fn read_blues(script: &[u8], at: usize, count: usize) -> Blues
    requires { (count ≤ max_blues) × (4 * (at + 2 * count) ≤ length script.now) }
    ensures { result ≡ blues_at (raw_at script.now) at count }
{
    let none = Blue {
        bottom: Fixed::ZERO,
        top: Fixed::ZERO,
    };
    let mut pairs = [none; MAX_BLUES];
    for (i, place) in pairs[..count].iter_mut().enumerate() {
        *place = pair(script, at + 2 * i);
    }
    Blues { pairs, count }
}

// The parameters, in the order in which the script has them.
#[tactic(auto, unfolding(crate::specs::Params::params_of))]
pub fn read_params(script: &[u8]) -> HintParams
    requires { WholeParams script.now }
    ensures { result ≡ params_of (raw_at script.now) }
{
    let blues = natural(script, layout::BLUES_COUNT);
    let others = natural(script, layout::OTHER_BLUES_COUNT);
    let family = natural(script, layout::FAMILY_BLUES_COUNT);
    let family_others = natural(script, layout::FAMILY_OTHER_BLUES_COUNT);
    let at_others = layout::PAIRS + 2 * blues;
    let at_family = at_others + 2 * others;
    let at_family_others = at_family + 2 * family;
    HintParams {
        blue_scale: number(script, layout::BLUE_SCALE),
        blue_shift: number(script, layout::BLUE_SHIFT),
        blue_fuzz: number(script, layout::BLUE_FUZZ),
        language_group: word(script, layout::LANGUAGE_GROUP),
        blues: read_blues(script, layout::PAIRS, blues),
        other_blues: read_blues(script, at_others, others),
        family_blues: read_blues(script, at_family, family),
        family_other_blues: read_blues(script, at_family_others, family_others),
    }
}
