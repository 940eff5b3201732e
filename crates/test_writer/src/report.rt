// What the program says.
use crate::cases::HEAD;
use crate::judging::Difference;
use crate::read_cases::read_case;
use crate::write_cases::write_case;
use std::io;
use std::io::Read;
use test_tables::{end_of_cases, read_bytes, run_cases};

pub(crate) fn tables<R: Read>(rt: &impl Print, file: &mut R) -> io::Result<()> {
    written_tables(rt, file)?;
    read_tables(rt, file)?;
    end_of_cases(rt, file)
}

fn written_tables<R: Read>(rt: &impl Print, file: &mut R) -> io::Result<()> {
    for name in [
        "by hand",
        "scale and counts",
        "commands",
        "masks",
        "left over",
        "two faults",
        "rooms",
        "sizes",
        "parameters",
        "glyphs",
        "written again",
    ] {
        run_cases(rt, file, name, |file| written(file))?;
    }
    Ok(())
}

fn read_tables<R: Read>(rt: &impl Print, file: &mut R) -> io::Result<()> {
    for name in ["read back", "read refused", "read rooms"] {
        run_cases(rt, file, name, |file| read(file))?;
    }
    Ok(())
}

// What first differs in the next case, which is one of writing; none where the file ends within it,
// or where it is too large.
fn written<R: Read>(file: &mut R) -> io::Result<Option<Option<Difference>>> {
    let mut head = [0u8; HEAD];
    if !read_bytes(file, &mut head)? {
        return Ok(None);
    }
    write_case(file, &head)
}

// The same of reading.
fn read<R: Read>(file: &mut R) -> io::Result<Option<Option<Difference>>> {
    let mut head = [0u8; HEAD];
    if !read_bytes(file, &mut head)? {
        return Ok(None);
    }
    read_case(file, &head)
}
