// Rows on G.709 frames, and on single rows of them: payloads and data that are encoded, checked and extracted again, refusals, and corrections.
use crate::calls::{Code, Operation};
use crate::damage::AddedErrors;
use crate::data::Data;
use crate::frame_rows::block;
use crate::rows::{SentData, lent};
use std::io;
use std::io::Write;

fn frame(data: Data) -> SentData {
    SentData::frame(Code::G709, data)
}

fn row(data: Data) -> SentData {
    SentData {
        code: Code::Row,
        data_length: 3824,
        data,
        length: 4080,
    }
}

// Bits 30,591 and 30,592 of a payload are the last of the first row and the first of the second. The row of bit 30,591 has the generator as word 15.
pub(crate) fn payloads<W: Write>(writer: &mut W) -> io::Result<()> {
    for data in [
        Data::Each(0),
        Data::Each(255),
        Data::Counted,
        Data::Bit(0),
        Data::Bit(30591),
        Data::Bit(30592),
        Data::Bit(122367),
    ] {
        frame(data).sent_and_read(writer)?;
    }
    for data in [
        Data::Each(0),
        Data::Each(255),
        Data::Counted,
        Data::Bit(0),
        Data::Bit(30591),
    ] {
        row(data).sent_and_read(writer)?;
    }
    Ok(())
}

pub(crate) fn refusals<W: Write>(writer: &mut W) -> io::Result<()> {
    // So many bytes as data, with a buffer that is too short and with the right one; then so many as a row, the same.
    for n in [0, 3823, 3824, 3825, 4080] {
        for space in [4079, 4080] {
            lent(
                writer,
                Operation::Encode,
                Code::Row,
                n,
                Data::Each(0),
                space,
            )?;
        }
    }
    for n in [0, 3824, 4079, 4080, 4081] {
        for (operation, space) in [
            (Operation::Check, 0),
            (Operation::Extract, 3823),
            (Operation::Extract, 3824),
            (Operation::Correct, 4079),
            (Operation::Correct, 4080),
        ] {
            lent(writer, operation, Code::Row, n, Data::Each(0), space)?;
        }
    }
    for (operation, n, space) in [
        (Operation::Extract, 4080, 0),
        (Operation::Extract, 4080, 3823),
        (Operation::Extract, 4080, 3825),
        (Operation::Correct, 4080, 0),
        (Operation::Correct, 4080, 4079),
        (Operation::Correct, 4080, 4081),
        (Operation::Encode, 3824, 0),
        (Operation::Encode, 3824, 4079),
        (Operation::Encode, 3824, 4081),
    ] {
        lent(writer, operation, Code::Row, n, Data::Each(255), space)?;
    }
    for place in [30591, 30592, 32639, 32640] {
        block(writer, Code::G709, 16320, Data::Bit(place), 15296)?;
    }
    for place in [0, 30591, 30592, 32639] {
        block(writer, Code::Row, 4080, Data::Bit(place), 3824)?;
    }
    lent(
        writer,
        Operation::Correct,
        Code::Row,
        4080,
        Data::Each(255),
        4080,
    )
}

// Bytes 16 apart are those of one word. 496 apart, nine reach from the first byte of word 15 into its parity. Neighbouring bytes, and those 31 apart, are taken
// from all words by turns: 128 are eight of each, and the next is the ninth of one.
pub(crate) fn row_corrections<W: Write>(writer: &mut W) -> io::Result<()> {
    for (data, count, value, first, step) in [
        (Data::Each(0), 0, 1, 0, 1),
        (Data::Each(0), 1, 1, 0, 1),
        (Data::Each(0), 1, 255, 3824, 1),
        (Data::Each(0), 1, 128, 4079, 1),
        (Data::Counted, 8, 255, 3, 16),
        (Data::Counted, 9, 255, 3, 16),
        (Data::Counted, 8, 1, 15, 496),
        (Data::Counted, 9, 1, 15, 496),
        (Data::Counted, 128, 255, 0, 1),
        (Data::Counted, 129, 255, 0, 1),
        (Data::Counted, 128, 77, 3951, 1),
        (Data::Counted, 129, 77, 3951, 1),
        (Data::Counted, 128, 3, 5, 31),
        (Data::Counted, 129, 3, 5, 31),
        (Data::Counted, 4080, 255, 0, 1),
    ] {
        let errors = AddedErrors {
            count,
            value,
            first,
            step,
        };
        row(data).corrected(writer, errors)?;
    }
    Ok(())
}

// From 8,168 on, bytes 16 apart are those of word 40. 1,339 apart, 512 bytes are eight of each of the 64 words, and the next is the ninth of word 5. From 3,952
// on, 256 neighbouring bytes are the last 128 of a row and the first 128 of the next one; from 4,016 on, 129 are 64 of the one and 65 of the other.
pub(crate) fn frame_corrections<W: Write>(writer: &mut W) -> io::Result<()> {
    for (data, count, value, first, step) in [
        (Data::Each(0), 0, 1, 0, 1),
        (Data::Each(0), 1, 1, 0, 1),
        (Data::Each(0), 1, 255, 16319, 1),
        (Data::Counted, 8, 255, 8168, 16),
        (Data::Counted, 9, 255, 8168, 16),
        (Data::Counted, 512, 255, 5, 1339),
        (Data::Counted, 513, 255, 5, 1339),
        (Data::Counted, 128, 1, 9000, 1),
        (Data::Counted, 129, 1, 9000, 1),
        (Data::Counted, 256, 99, 3952, 1),
        (Data::Counted, 257, 99, 3952, 1),
        (Data::Counted, 129, 1, 4016, 1),
        (Data::Counted, 16320, 255, 0, 1),
    ] {
        let errors = AddedErrors {
            count,
            value,
            first,
            step,
        };
        frame(data).corrected(writer, errors)?;
    }
    Ok(())
}
