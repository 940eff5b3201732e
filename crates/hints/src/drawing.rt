// A drawing: what the calls on it change. Its zones stand beside it, and no call changes them.
use crate::hints::Hints;
use pen::Pen;

#[derive(Clone, Copy, Debug, PartialEq, Eq)]
pub struct Drawing {
    pub hints: Hints,
    pub pen: Pen,
}
