// The map that drawings hold, and its edges as numbers.
ghost use Rattle.std.specs.Prelude.{◌≡◌, ◌≤◌};
ghost use Rattle.stems.specs.Edge.{max_hints};
ghost use Rattle.stems.specs.Lists.{Whole, Listed};
ghost use Rattle.hintmap.specs.Map.{new_map, invalid_map, valid_map};
ghost use Rattle.hintmap.specs.Lent.{map_in};

use fixed::Fixed;
use stems::{Hint, LINES, MAX_HINTS, TAGS, edge_at, put_edge};

#[derive(Clone, Copy, Debug, PartialEq, Eq)]
pub struct HintMap {
    pub edges: [Hint; MAX_HINTS],
    pub len: usize,
    pub is_valid: bool,
    pub scale: Fixed,
}

impl HintMap {
    // Ports `HintMap::new`.
    pub fn new(scale: Fixed) -> HintMap
        ensures { result ≡ new_map scale }
    {
        HintMap {
            edges: [Hint::none(); MAX_HINTS],
            len: 0,
            is_valid: false,
            scale,
        }
    }

    // From `hint_mask`: the map is to be built anew, and keeps its edges until then.
    pub fn invalidate(mut self) -> HintMap
        ensures { result ≡ invalid_map self }
    {
        self.is_valid = false;
        self
    }

    // From `build`: the map is built.
    pub fn validate(mut self) -> HintMap
        ensures { result ≡ valid_map self }
    {
        self.is_valid = true;
        self
    }

    // The edges as numbers, at every place of lists.
    pub fn list(self, lines: &mut [i32; LINES], tags: &mut [u8; TAGS])
        requires { Whole lines.old tags.old }
        ensures { Listed self.edges lines.new tags.new }
    {
        for (i, edge) in self.edges.iter().enumerate() {
            put_edge(lines, tags, i, *edge);
        }
    }

    // The map that the first places of lists hold.
    pub fn from_lists(lines: &[i32; LINES], tags: &[u8; TAGS], len: usize, scale: Fixed) -> HintMap
        requires { len ≤ max_hints }
        ensures { result ≡ map_in lines.now tags.now len scale }
    {
        let mut map = HintMap::new(scale);
        for i in 0..len {
            map.edges[i] = edge_at(lines, tags, i);
        }
        map.len = len;
        map
    }
}
