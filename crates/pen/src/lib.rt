// The pen of a drawing, and the record words that its strokes write (01, "Path records").
#![tactic(auto)]

mod counting;
mod drawn;
mod records;
mod strokes;

pub use counting::{Counted, Trail};
pub use drawn::{Drawn, NoRoom};
pub use records::{BARE_RECORD, CURVE_RECORD, POINT_RECORD, Record};
pub use strokes::{Path, Pen, Point, WaitingLine};
