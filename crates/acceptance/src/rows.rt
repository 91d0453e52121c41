// Rows: a line names the call and what it is lent, and gives its answer with the buffer, which is shown after the call, refused or not.
use crate::calls::{Code, Operation, call};
use crate::damage::AddedErrors;
use crate::data::Data;
use crate::lines::buffer;
use crate::values::MOST;
use frames::Frame;
use std::io;
use std::io::Write;

// The first n values, or as many as there are.
fn first(values: &[u16; MOST], n: usize) -> &[u16] {
    &values[..n.min(MOST)]
}

// The rest of a line: the call with these values and a buffer of nines.
fn answered<W: Write>(
    writer: &mut W,
    operation: Operation,
    code: Code,
    values: &[u16],
    space: usize,
) -> io::Result<()> {
    let mut out = [9u16; MOST];
    let free = &mut out[..space.min(MOST)];
    let answer = call(operation, code, values, free);
    write!(writer, ", buffer of {space}:{answer}")?;
    buffer(writer, free)
}

// The same, lending what is received of a word, frame or row.
pub(crate) fn received_as<W: Write>(
    writer: &mut W,
    operation: Operation,
    sent: SentData,
    word: &[u16; MOST],
    space: usize,
) -> io::Result<()> {
    answered(
        writer,
        operation,
        sent.code,
        first(word, sent.length),
        space,
    )
}

// Lends n values of the data.
pub(crate) fn lent<W: Write>(
    writer: &mut W,
    operation: Operation,
    code: Code,
    n: usize,
    data: Data,
    space: usize,
) -> io::Result<()> {
    let mut values = [0u16; MOST];
    data.fill(&mut values);
    write!(writer, "{operation} {code}, length {n}, {data}")?;
    answered(writer, operation, code, first(&values, n), space)
}

// A word, frame or row that is sent: how many values its data has, the data, and how many values it has itself.
#[derive(Clone, Copy)]
pub(crate) struct SentData {
    pub(crate) code: Code,
    pub(crate) data_length: usize,
    pub(crate) data: Data,
    pub(crate) length: usize,
}

impl SentData {
    // A frame, of either kind.
    pub(crate) fn frame(code: Code, data: Data) -> Self {
        SentData {
            code,
            data_length: Frame::PAYLOAD_BYTES,
            data,
            length: Frame::BYTES,
        }
    }

    // The first part of a line. Writes what is sent, and prints the encoder's answer. A word is its data with the parity after them; a frame or row is written
    // whole.
    pub(crate) fn encoded<W: Write>(
        self,
        writer: &mut W,
        operation: Operation,
        word: &mut [u16; MOST],
    ) -> io::Result<()> {
        let SentData {
            code,
            data_length,
            data,
            length,
        } = self;
        let mut values = [0u16; MOST];
        data.fill(&mut values);
        data.fill(word);
        let end = length.min(MOST);
        let start = match code {
            Code::Outer | Code::Inner => data_length.min(end),
            Code::Frame | Code::G709 | Code::Row => 0,
        };
        let answer = call(
            Operation::Encode,
            code,
            first(&values, data_length),
            &mut word[start..end],
        );
        write!(
            writer,
            "{operation} {code}, length {data_length}, {data}, encoded to {length}:{answer}"
        )
    }

    // Lends what is received: what is sent, with errors.
    pub(crate) fn received<W: Write>(
        self,
        writer: &mut W,
        operation: Operation,
        errors: AddedErrors,
        space: usize,
    ) -> io::Result<()> {
        let mut word = [0u16; MOST];
        self.encoded(writer, operation, &mut word)?;
        write!(writer, ", {errors}")?;
        errors.add(self.code, &mut word);
        received_as(writer, operation, self, &word, space)
    }

    // The row that corrects it.
    pub(crate) fn corrected<W: Write>(self, writer: &mut W, errors: AddedErrors) -> io::Result<()> {
        self.received(writer, Operation::Correct, errors, self.length)
    }

    // The rows that encode it, check it, and extract its data.
    pub(crate) fn sent_and_read<W: Write>(self, writer: &mut W) -> io::Result<()> {
        lent(
            writer,
            Operation::Encode,
            self.code,
            self.data_length,
            self.data,
            self.length,
        )?;
        self.received(writer, Operation::Check, AddedErrors::NONE, 0)?;
        self.received(
            writer,
            Operation::Extract,
            AddedErrors::NONE,
            self.data_length,
        )
    }
}
