// What becomes of scripts, counted. model/tables/scripts_again.py gives the same counts.
use crate::again::Again;
use std::io;
use std::num::wrapping_add_usize;

#[derive(Clone, Copy)]
pub(crate) struct AgainTally {
    pub same_bytes: usize,
    pub other_bytes: usize,
    pub refused: usize,
    pub not_read: usize,
}

impl AgainTally {
    pub(crate) fn none() -> AgainTally {
        AgainTally {
            same_bytes: 0,
            other_bytes: 0,
            refused: 0,
            not_read: 0,
        }
    }

    // One script more.
    pub(crate) fn count(&mut self, again: Again) {
        match again {
            Again::SameBytes => self.same_bytes = wrapping_add_usize(self.same_bytes, 1),
            Again::OtherBytes => self.other_bytes = wrapping_add_usize(self.other_bytes, 1),
            Again::Refused => self.refused = wrapping_add_usize(self.refused, 1),
            Again::NotRead => self.not_read = wrapping_add_usize(self.not_read, 1),
        }
    }

    pub(crate) fn say(self, rt: &impl Print) -> io::Result<()> {
        print!(rt; "written again: {} the same bytes, ", self.same_bytes)?;
        print!(rt; "{} other bytes, ", self.other_bytes)?;
        print!(rt; "{} refused by the writer; ", self.refused)?;
        println!(rt; "{} not read back", self.not_read)
    }
}
