// How a line ends: with the values that are in a buffer.
use crate::values::{digest, nines};
use std::io;
use std::io::Write;

pub(crate) fn list<W: Write>(writer: &mut W, values: &[u16]) -> io::Result<()> {
    for value in values {
        write!(writer, " {value}")?;
    }
    Ok(())
}

// The values as they are, if they are few; else their digest, and how many nines they have.
pub(crate) fn buffer<W: Write>(writer: &mut W, values: &[u16]) -> io::Result<()> {
    if values.len() <= 17 {
        list(writer, values)?;
    } else {
        let digest = digest(values);
        let nines = nines(values);
        write!(writer, " {digest} {nines}")?;
    }
    writeln!(writer)
}
