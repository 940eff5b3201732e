// Adjusting a map: its hints are moved to whole pixels (`adjust` in hint.rs; 01, "The map",
// Adjust).
#![tactic(auto)]

ghost use Rattle.std.specs.Prelude.{◌≡◌, ◌-◌, ◌<◌, ◌≤◌};
ghost use Rattle.stems.specs.Edge.{max_hints, is_pair};
ghost use Rattle.adjust.specs.Adjust.{to_next, moves_of, beside_by, room_up, room_down, choice_of, note_of, moved_hint};
ghost use Rattle.adjust.specs.Adjust.{settle_of, rescaled_hint};
ghost use Rattle.adjust.specs.Pass.{next_place, upper_by, lower_by};
ghost use Rattle.adjust.specs.Adjusted.{Retried, NoteRoom, Adjusted};
ghost use Rattle.hintmap.specs.Lent.{Lent};

use fixed::Fixed;
use stems::{Hint, LINES, MAX_HINTS, TAGS, edge_at, put_line};

// The smallest move up and the smallest move down. A move down is not above 0.
#[derive(Clone, Copy, Debug, PartialEq, Eq)]
pub struct Moves {
    pub up: Fixed,
    pub down: Fixed,
}

// The move that is made, and whether there was no room for a shorter move up, or for any.
#[derive(Clone, Copy, Debug, PartialEq, Eq)]
pub struct Choice {
    pub by: Fixed,
    pub short: bool,
}

// The edges of a hint once it is moved, and the move that it misses.
#[derive(Clone, Copy, Debug, PartialEq, Eq)]
pub struct Aligned {
    pub low: Hint,
    pub high: Hint,
    pub note: Option<Fixed>,
}

// From `adjust`: the move up from a fraction to the next whole pixel.
#[tactic(auto, unfolding(crate::specs::Adjust::to_next))]
fn to_next(fraction: Fixed) -> Fixed
    ensures { result ≡ to_next fraction }
{
    if fraction == Fixed::ZERO {
        Fixed::ZERO
    } else {
        Fixed::ONE.sub(fraction)
    }
}

// From `adjust`: the smallest moves that put one of two edges on a whole pixel.
#[tactic(auto, unfolding(crate::specs::Adjust::moves_of))]
fn smallest(low: Fixed, high: Fixed) -> Moves
    ensures { result ≡ moves_of low high }
{
    let zero = Fixed::ZERO;
    let frac_down = low.fract();
    let frac_up = high.fract();
    let up = to_next(frac_down).min(to_next(frac_up));
    let down = zero.sub(frac_down).max(zero.sub(frac_up));
    Moves { up, down }
}

// From `adjust`: whether there is room for an upper edge to move up. A counter keeps half a pixel
// at least. Its mirror, `room_down`, is a function of its own, as the definitions name both.
#[tactic(auto, unfolding(crate::specs::Adjust::room_up))]
fn room_up(above: Option<Hint>, high: Fixed, by: Fixed) -> bool
    ensures { result ≡ room_up above high by }
{
    match above {
        Some(edge) => high.add(by).add(Fixed::HALF) <= edge.ds_coord,
        None => true,
    }
}

// From `adjust`: whether there is room for a lower edge to move down.
#[tactic(auto, unfolding(crate::specs::Adjust::room_down))]
fn room_down(below: Option<Hint>, low: Fixed, by: Fixed) -> bool
    ensures { result ≡ room_down below low by }
{
    match below {
        Some(edge) => edge.ds_coord <= low.add(by).sub(Fixed::HALF),
        None => true,
    }
}

// From `adjust`: the move that is made, by the room there is.
#[tactic(auto, unfolding(crate::specs::Adjust::choice_of))]
fn choose(up: bool, down: bool, moves: Moves) -> Choice
    ensures { result ≡ choice_of up down moves }
{
    let rise = moves.up;
    let fall = moves.down;
    match (up, down) {
        (true, true) => Choice {
            by: if fall.neg() < rise { fall } else { rise },
            short: false,
        },
        (true, false) => Choice {
            by: rise,
            short: false,
        },
        (false, true) => Choice {
            by: fall,
            short: rise < fall.neg(),
        },
        (false, false) => Choice {
            by: Fixed::ZERO,
            short: true,
        },
    }
}

// From `adjust`: what is noted. Only an unlocked edge above can make room for a hint that fell
// short.
#[tactic(auto, unfolding(crate::specs::Adjust::note_of))]
fn noted(above: Option<Hint>, short: bool, missing: Fixed) -> Option<Fixed>
    ensures { result ≡ note_of above short missing }
{
    match above {
        Some(edge) if short && !edge.is_locked() => Some(missing),
        _ => None,
    }
}

// From `adjust`: an edge moved on the device.
#[tactic(auto, unfolding(crate::specs::Adjust::moved_hint))]
fn moved(edge: Hint, by: Fixed) -> Hint
    ensures { result ≡ moved_hint edge by }
{
    edge.at_device(edge.ds_coord.add(by))
}

// From `adjust`: an unlocked hint is moved, and noted where it fell short.
#[tactic(auto, unfolding(crate::specs::Adjust::settle_of))]
fn settle(below: Option<Hint>, low: Hint, high: Hint, above: Option<Hint>) -> Aligned
    ensures { result ≡ settle_of below low high above }
{
    if low.is_locked() {
        return Aligned {
            low,
            high,
            note: None,
        };
    }
    let moves = smallest(low.ds_coord, high.ds_coord);
    let up = room_up(above, high.ds_coord, moves.up);
    let down = room_down(below, low.ds_coord, moves.down);
    let choice = choose(up, down, moves);
    let missing = moves.up.sub(choice.by);
    Aligned {
        low: moved(low, choice.by),
        high: moved(high, choice.by),
        note: noted(above, choice.short, missing),
    }
}

// From `adjust`: an edge with the scale of the line from it to the next.
#[tactic(auto, unfolding(crate::specs::Adjust::rescaled_hint))]
fn rescaled(below: Hint, edge: Hint) -> Hint
    ensures { result ≡ rescaled_hint below edge }
{
    if edge.cs_coord == below.cs_coord {
        return below;
    }
    let rise = edge.ds_coord.sub(below.ds_coord);
    Hint {
        scale: rise.div(edge.cs_coord.sub(below.cs_coord)),
        ..below
    }
}

// The place before one, and the place after it. The first stays, and so does the last.
fn previous(k: usize) -> usize
    ensures { result ≡ k - 1 }
{
    k.saturating_sub(1)
}

#[tactic(auto, unfolding(crate::specs::Pass::next_place))]
fn next(k: usize, len: usize) -> usize
    requires { k < max_hints }
    ensures { result ≡ next_place len k }
{
    if k + 1 < len { k + 1 } else { k }
}

// The edge beside a hint, where there is one.
fn beside(there: bool, edge: Hint) -> Option<Hint>
    ensures { result ≡ beside_by there edge }
{
    there.then_some(edge)
}

// From `adjust`: the place of the upper edge of the hint whose lower edge is at i. Above a pair's
// lower edge there always is one.
fn upper(edge: Hint, i: usize, len: usize) -> usize
    requires { i < max_hints }
    ensures { result ≡ upper_by (is_pair edge) len i }
{
    if edge.is_pair() { next(i, len) } else { i }
}

// From `adjust`: the place of the lower edge of the hint whose upper edge is at j.
fn lower(edge: Hint, j: usize) -> usize
    ensures { result ≡ lower_by (is_pair edge) j }
{
    if edge.is_pair() { previous(j) } else { j }
}

// From `adjust`: the second pass, newest note first, lifts hints for which the moves above them have
// made room. A note is the place of a hint's upper edge, and its missing move. Every note is of an
// edge of the map. Scales stay.
fn second_pass(
    lines: &mut [i32; LINES],
    tags: &[u8; TAGS],
    len: usize,
    at: &[u8; MAX_HINTS],
    by: &[i32; MAX_HINTS],
    count: usize,
)
    requires { Lent lines.old tags.now len × (count ≤ max_hints) }
    ensures { Retried lines.old tags.now len at.now by.now count
        lines.new }
{
    for k in (0..count).rev() {
        let j = at[k] as usize;
        let missing = Fixed { bits: by[k] };
        if len <= j {
            continue;
        }
        let high = edge_at(lines, tags, j);
        let n = next(j, len);
        let above = edge_at(lines, tags, n);
        if !room_up(beside(j + 1 < len, above), high.ds_coord, missing) {
            continue;
        }
        let i = lower(high, j);
        let low = edge_at(lines, tags, i);
        put_line(lines, i, moved(low, missing));
        put_line(lines, j, moved(high, missing));
    }
}

// Ports `adjust`, in the lists of a map. The first pass goes upward over the hints and does not look
// ahead: what it leaves short is noted for the second. The moves of the notes go into `by`, whatever
// lies there.
pub fn adjust(lines: &mut [i32; LINES], tags: &[u8; TAGS], len: usize, by: &mut [i32; MAX_HINTS])
    requires { Lent lines.old tags.now len × NoteRoom by.old }
    ensures { Adjusted lines.old tags.now len lines.new by.new }
{
    let mut at = [0u8; MAX_HINTS];
    let mut count: usize = 0;
    let mut i: usize = 0;
    // A turn takes the one or two edges of a hint.
    while i < len {
        let low = edge_at(lines, tags, i);
        let j = upper(low, i, len);
        let high = edge_at(lines, tags, j);
        let b = previous(i);
        let below = edge_at(lines, tags, b);
        let n = next(j, len);
        let above = edge_at(lines, tags, n);
        let Aligned {
            low: bottom,
            high: top,
            note,
        } = settle(beside(0 < i, below), low, high, beside(j + 1 < len, above));
        put_line(lines, b, rescaled(below, bottom));
        put_line(lines, i, rescaled(bottom, top));
        put_line(lines, j, top);
        i = j + 1;
        if let Some(missing) = note {
            at[count] = j as u8;
            by[count] = missing.bits;
            count += 1;
        }
    }
    second_pass(lines, tags, len, &at, by, count);
}
