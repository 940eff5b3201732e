// Inserting a stem's edges.
ghost use Rattle.std.specs.Prelude.{◌≡◌, true, ◌≤◌, length};
ghost use Rattle.stems.specs.Edge.{max_hints};
ghost use Rattle.stems.specs.Lists.{Whole};
ghost use Rattle.hintmap.specs.Insert.{chosen, first_edge, edges_of, may_enter, bars, too_high, under};
ghost use Rattle.hintmap.specs.Insert.{middle_of, around};
ghost use Rattle.hintmap.specs.Lent.{Rises, Lent, PlacedBy, Places, Comes, Entered, Inserted};

use crate::heights::transform;
use fixed::Fixed;
use stems::{
    Hint, LAST_HINT, LINES, MAX_HINTS, Shape, TAGS, copy_edge, edge_at, height_at, put_edge,
};

// What is put in: one edge, or the two of a pair.
#[derive(Clone, Copy, Debug, PartialEq, Eq)]
pub enum Edges {
    One(Hint),
    Two(Hint, Hint),
}

impl Edges {
    // From `insert`: the edges that a stem has, by its shape.
    #[tactic(auto, unfolding(crate::specs::Insert::chosen))]
    pub fn choose(shape: Shape, bottom: Hint, top: Hint) -> Edges
        ensures { result ≡ chosen shape bottom top }
    {
        match shape {
            Shape::BottomGhost(_) => Edges::One(bottom),
            Shape::TopGhost(_) => Edges::One(top),
            Shape::Pair(_, _) => Edges::Two(bottom, top),
        }
    }

    fn first(self) -> Hint
        ensures { result ≡ first_edge self }
    {
        match self {
            Edges::One(e) => e,
            Edges::Two(b, _) => b,
        }
    }

    fn count(self) -> usize
        ensures { result ≡ length (edges_of self) }
    {
        match self {
            Edges::One(_) => 1,
            Edges::Two(_, _) => 2,
        }
    }

    // Whether a pair is in order, and there is room.
    #[tactic(auto, using(crate::proofs::Enter::not_less), unfolding(crate::specs::Insert::may_enter))]
    fn may_enter(self, len: usize) -> bool
        ensures { result ≡ may_enter len self }
    {
        match self {
            Edges::One(_) => len < MAX_HINTS,
            Edges::Two(b, t) => b.cs_coord <= t.cs_coord && len < LAST_HINT,
        }
    }

    // Whether the edge x at the place stands in the way in character height: it is at the same
    // height, a pair would reach over it, or it is the top of a pair, into which the new edges
    // would go.
    #[tactic(auto, unfolding(crate::specs::Insert::bars))]
    fn barred(self, x: Hint) -> bool
        ensures { result ≡ bars x self }
    {
        match self {
            Edges::One(e) => x.cs_coord == e.cs_coord || x.is_pair_top(),
            Edges::Two(b, t) => {
                x.cs_coord == b.cs_coord || x.is_pair_top() || x.cs_coord <= t.cs_coord
            }
        }
    }

    // Whether either edge lies above x on the device.
    #[tactic(auto, unfolding(crate::specs::Insert::too_high))]
    fn too_high(self, x: Hint) -> bool
        ensures { result ≡ too_high x self }
    {
        match self {
            Edges::One(e) => x.ds_coord < e.ds_coord,
            Edges::Two(b, t) => x.ds_coord < t.ds_coord || x.ds_coord < b.ds_coord,
        }
    }

    // Whether the first edge lies under x on the device.
    fn under(self, x: Hint) -> bool
        ensures { result ≡ under x self }
    {
        self.first().ds_coord < x.ds_coord
    }

    // The height that the initial map is asked for.
    fn middle(self) -> Fixed
        ensures { result ≡ middle_of self }
    {
        match self {
            Edges::One(e) => e.cs_coord,
            Edges::Two(b, t) => b.cs_coord.midpoint(t.cs_coord),
        }
    }

    // Placed by a device height: a single edge there, a pair around it, so that the stem keeps the
    // width that the scale gives it.
    fn around(self, device: Fixed, scale: Fixed) -> Edges
        ensures { result ≡ around device scale self }
    {
        match self {
            Edges::One(e) => Edges::One(e.at_device(device)),
            Edges::Two(b, t) => {
                let w = t.cs_coord.sub(b.cs_coord).half().mul(scale);
                Edges::Two(b.at_device(device.sub(w)), t.at_device(device.add(w)))
            }
        }
    }

    // Placed again by the lines of the initial map, with its own scale, unless the first is locked.
    pub fn placed(self, initial: &[i32; LINES], len: usize, base: Fixed, scale: Fixed) -> Edges
        requires { len ≤ max_hints }
        ensures { PlacedBy initial.now len base scale self result }
    {
        if self.first().is_locked() {
            return self;
        }
        self.around(transform(initial, len, base, self.middle(), false), scale)
    }
}

// From `insert`: the place before the first edge that is not under a height. Edges stand in
// never-falling height, and most stems are declared upward, so it is looked for from the last edge
// down.
fn place_of(lines: &[i32; LINES], len: usize, height: Fixed) -> usize
    requires { (len ≤ max_hints) × Rises lines.now len }
    ensures { (result ≤ len) × Places lines.now len height result }
{
    for at in (0..len).rev() {
        if height_at(lines, at) < height {
            return at + 1;
        }
    }
    0
}

// From `insert`: the edges enter at a place, as they are then placed, or they are dropped. The tests
// are of the edge at the place and of the one before it.
fn decide(lines: &[i32; LINES], tags: &[u8; TAGS], len: usize, e: Edges) -> Option<(usize, Edges)>
    requires { (len ≤ max_hints) × Rises lines.now len }
    ensures { Comes lines.now tags.now len e result }
{
    if !e.may_enter(len) {
        return None;
    }
    let at = place_of(lines, len, e.first().cs_coord);
    if 0 < at && e.under(edge_at(lines, tags, at - 1)) {
        return None;
    }
    if at < len {
        let x = edge_at(lines, tags, at);
        if e.barred(x) || e.too_high(x) {
            return None;
        }
    }
    Some((at, e))
}

// From `insert`: edges are put at a place, and those from there on go up. Gives the new length.
fn put(lines: &mut [i32; LINES], tags: &mut [u8; TAGS], len: usize, at: usize, e: Edges) -> usize
    requires { Whole lines.old tags.old × ((at ≤ len) × (may_enter len e ≡ true)) }
    ensures { Entered lines.old tags.old len at (edges_of e) result lines.new
        tags.new }
{
    let n = e.count();
    for k in (at..len).rev() {
        copy_edge(lines, tags, k, k + n);
    }
    match e {
        Edges::One(x) => put_edge(lines, tags, at, x),
        Edges::Two(b, t) => {
            put_edge(lines, tags, at, b);
            put_edge(lines, tags, at + 1, t);
        }
    }
    len + n
}

// Ports `HintMap::insert`, into the lists of a map: edges as they are placed are put in, or dropped.
// Gives the new length.
pub fn insert_edges(lines: &mut [i32; LINES], tags: &mut [u8; TAGS], len: usize, e: Edges) -> usize
    requires { Lent lines.old tags.old len }
    ensures { Inserted lines.old tags.old len e result lines.new
        tags.new }
{
    match decide(lines, tags, len, e) {
        Some((at, placed)) => put(lines, tags, len, at, placed),
        None => len,
    }
}
