// Masks of active stems, stems, and the edges that a stem has (01, "Stems and masks").
#![tactic(auto)]

mod edge;
mod lists;
mod mask;

pub use edge::{Hint, Kind, LAST_HINT, MAX_HINTS, Shape, Side, StemHint, Stems};
pub use lists::{
    LINES, STEM_NUMBERS, TAGS, copy_edge, device_at, edge_at, height_at, mark_if, number_at,
    put_edge, put_line, put_number, put_stem, scale_at, stem_at,
};
pub use mask::{HINT_MASK_SIZE, HintMask, clear_active, is_active, take_first};
