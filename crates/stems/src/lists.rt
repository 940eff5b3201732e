// Edges and stems as numbers in lists that are lent. A list of structs goes by value, and a function
// that takes it copies it whole; a list of numbers is changed where it lies. Only this file and its
// definitions know how the numbers lie.
//
// The lines of a map are 288 numbers, 96 each of character heights, device heights and scales. Its
// tags are 192 bytes: 96 of kinds with their marks, and 96 of stem numbers. Stems are 480 numbers,
// 96 each of: 1.0 if the stem is used, and its four heights.
ghost use Rattle.std.specs.Prelude.{◌≡◌, ◌+◌, ◌<◌, ◌≤◌, pos, length, get_or, set};
ghost use Rattle.fixed.specs.Fixed.{from_bits};
ghost use Rattle.stems.specs.Edge.{max_hints};
ghost use Rattle.stems.specs.Lists.{kind_in, kind_number, mark, tag_of, height_in, device_in, scale_in, hint_in};
ghost use Rattle.stems.specs.Lists.{set_line, Put, Copied, stem_in, stems_in, mark_if, set_stem, ListedStems};

use crate::edge::{Hint, Kind, MAX_HINTS, StemHint, Stems};
use fixed::Fixed;

// How many numbers the lines of a map are, its tags, and stems.
pub const LINES: usize = 288;

pub const TAGS: usize = 192;

pub const STEM_NUMBERS: usize = 480;

// Where device heights and scales start among lines, and the heights of stems.
const DEVICES: usize = 96;

const SCALES: usize = 192;

const MINIMA: usize = 96;

const MAXIMA: usize = 192;

const DEVICE_MINIMA: usize = 288;

const DEVICE_MAXIMA: usize = 384;

// Where stem numbers start among tags, and what a kind with marks counts in a tag.
const NUMBERS: usize = 96;

const KINDS: u8 = 8;

const LOCKED: u8 = 8;

const SYNTHETIC: u8 = 16;

// The kind that a tag names.
impl From<u8> for Kind {
    ghost from_gives = { λ tag kind. kind ≡ kind_in tag };

    #[tactic(auto, unfolding(crate::specs::Lists::kind_in))]
    fn from(tag: u8) -> Kind {
        match tag % KINDS {
            0 => Kind::Absent,
            1 => Kind::GhostBottom,
            2 => Kind::GhostTop,
            3 => Kind::PairBottom,
            _ => Kind::PairTop,
        }
    }
}

// What a kind counts in a tag.
impl From<Kind> for u8 {
    ghost from_gives = { λ kind number. (number ≡ kind_number kind) × (number ≤ 4) };

    fn from(kind: Kind) -> u8 {
        match kind {
            Kind::Absent => 0,
            Kind::GhostBottom => 1,
            Kind::GhostTop => 2,
            Kind::PairBottom => 3,
            Kind::PairTop => 4,
        }
    }
}

// What a mark counts in a tag.
fn marked(is: bool, weight: u8) -> u8
    ensures { (result ≡ mark is weight) × (result ≤ weight) }
{
    if is { weight } else { 0 }
}

fn tag_of(edge: Hint) -> u8
    ensures { result ≡ tag_of edge }
{
    u8::from(edge.kind) + marked(edge.locked, LOCKED) + marked(edge.synthetic, SYNTHETIC)
}

// The number at a place of a list.
pub fn number_at<const N: usize>(numbers: &[i32; N], at: usize) -> Fixed
    requires { at < N }
    ensures { result ≡ from_bits (get_or numbers.now at (pos 0)) }
{
    Fixed { bits: numbers[at] }
}

// A number, at a place of a list.
pub fn put_number<const N: usize>(numbers: &mut [i32; N], at: usize, value: Fixed)
    requires { at < N }
    ensures { numbers.new ≡ set numbers.old at value.bits }
{
    numbers[at] = value.bits;
}

// The character height of the edge at a place.
pub fn height_at(lines: &[i32; LINES], i: usize) -> Fixed
    requires { i < max_hints }
    ensures { result ≡ height_in lines.now i }
{
    number_at(lines, i)
}

// Its device height.
pub fn device_at(lines: &[i32; LINES], i: usize) -> Fixed
    requires { i < max_hints }
    ensures { result ≡ device_in lines.now i }
{
    number_at(lines, DEVICES + i)
}

// Its scale.
pub fn scale_at(lines: &[i32; LINES], i: usize) -> Fixed
    requires { i < max_hints }
    ensures { result ≡ scale_in lines.now i }
{
    number_at(lines, SCALES + i)
}

// The whole edge.
#[tactic(auto, unfolding(crate::specs::Lists::hint_in))]
pub fn edge_at(lines: &[i32; LINES], tags: &[u8; TAGS], i: usize) -> Hint
    requires { i < max_hints }
    ensures { result ≡ hint_in lines.now tags.now i }
{
    let tag = tags[i];
    Hint {
        kind: Kind::from(tag),
        locked: tag / LOCKED % 2 == 1,
        synthetic: tag / SYNTHETIC % 2 == 1,
        index: tags[NUMBERS + i],
        cs_coord: height_at(lines, i),
        ds_coord: device_at(lines, i),
        scale: scale_at(lines, i),
    }
}

// The device height and the scale of an edge, at a place.
pub fn put_line(lines: &mut [i32; LINES], i: usize, edge: Hint)
    requires { i < max_hints }
    ensures { lines.new ≡ set_line lines.old i edge }
{
    put_number(lines, DEVICES + i, edge.ds_coord);
    put_number(lines, SCALES + i, edge.scale);
}

// An edge, at a place.
pub fn put_edge(lines: &mut [i32; LINES], tags: &mut [u8; TAGS], i: usize, edge: Hint)
    requires { i < max_hints }
    ensures { Put lines.old tags.old i edge lines.new tags.new }
{
    put_number(lines, i, edge.cs_coord);
    put_line(lines, i, edge);
    tags[i] = tag_of(edge);
    tags[NUMBERS + i] = edge.index;
}

// The edge at one place, at another too.
pub fn copy_edge(lines: &mut [i32; LINES], tags: &mut [u8; TAGS], from: usize, to: usize)
    requires { (from < max_hints) × (to < max_hints) }
    ensures { Copied lines.old tags.old from to lines.new tags.new }
{
    let height = lines[from];
    let device = lines[DEVICES + from];
    let scale = lines[SCALES + from];
    let tag = tags[from];
    let index = tags[NUMBERS + from];
    lines[to] = height;
    lines[DEVICES + to] = device;
    lines[SCALES + to] = scale;
    tags[to] = tag;
    tags[NUMBERS + to] = index;
}

// The stem at a place.
#[tactic(auto, unfolding(crate::specs::Lists::stem_in))]
pub fn stem_at(stems: &[i32; STEM_NUMBERS], i: usize) -> StemHint
    requires { i < max_hints }
    ensures { result ≡ stem_in stems.now i }
{
    StemHint {
        is_used: Fixed::ZERO < number_at(stems, i),
        min: number_at(stems, MINIMA + i),
        max: number_at(stems, MAXIMA + i),
        ds_min: number_at(stems, DEVICE_MINIMA + i),
        ds_max: number_at(stems, DEVICE_MAXIMA + i),
    }
}

// The number that stands for a truth.
pub fn mark_if(is: bool) -> Fixed
    ensures { result ≡ mark_if is }
{
    if is { Fixed::ONE } else { Fixed::ZERO }
}

// A stem, at a place.
#[tactic(auto, unfolding(crate::specs::Lists::set_stem))]
pub fn put_stem(stems: &mut [i32; STEM_NUMBERS], i: usize, stem: StemHint)
    requires { i < max_hints }
    ensures { stems.new ≡ set_stem stems.old i stem }
{
    put_number(stems, i, mark_if(stem.is_used));
    put_number(stems, MINIMA + i, stem.min);
    put_number(stems, MAXIMA + i, stem.max);
    put_number(stems, DEVICE_MINIMA + i, stem.ds_min);
    put_number(stems, DEVICE_MAXIMA + i, stem.ds_max);
}

impl Stems {
    // The stems as numbers, at every place of a list.
    pub fn list(self, stems: &mut [i32; STEM_NUMBERS])
        requires { length stems.old ≡ 480 }
        ensures { ListedStems self stems.new }
    {
        for (i, stem) in self.list.iter().enumerate() {
            put_stem(stems, i, *stem);
        }
    }

    // The stems at all places of a list, of which so many are declared.
    pub fn from_list(stems: &[i32; STEM_NUMBERS], count: usize) -> Stems
        ensures { result ≡ stems_in stems.now count }
    {
        let list = std::array::from_fn(|i| stem_at(stems, i));
        Stems { list, count }
    }
}
