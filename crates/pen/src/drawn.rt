// How a call that writes records ends.
use crate::strokes::Pen;
use std::error::Error;
use std::fmt;

// The words of a call do not fit.
#[derive(Clone, Copy, Debug, PartialEq, Eq)]
pub struct NoRoom;

impl fmt::Display for NoRoom {
    fn fmt<W: fmt::Write>(&self, f: &mut fmt::Formatter<W>) -> fmt::Result {
        write!(f, "too little room")
    }
}

impl Error for NoRoom {}

// What is left of the pen, and how the call ended: with so many words, or with too little room.
#[derive(Clone, Copy, Debug, PartialEq, Eq)]
pub struct Drawn {
    pub pen: Pen,
    pub answer: Result<usize, NoRoom>,
}
