// Rows on frames: payloads that are encoded, checked and extracted again, refusals, blocks that are no frames, and corrections.
use crate::calls::{Code, Operation};
use crate::damage::AddedErrors;
use crate::data::Data;
use crate::lines::buffer;
use crate::rows::{SentData, lent};
use frames::Frame;
use std::io;
use std::io::Write;

// A payload, its frame, and the payload again.
fn payload<W: Write>(writer: &mut W, data: Data) -> io::Result<()> {
    let mut values = [0u16; Frame::PAYLOAD_BYTES];
    data.fill(&mut values);
    write!(writer, "payload, {data}:")?;
    buffer(writer, &values)?;
    SentData::frame(Code::Frame, data).sent_and_read(writer)
}

pub(crate) fn payloads<W: Write>(writer: &mut W) -> io::Result<()> {
    for data in [
        Data::Each(0),
        Data::Each(255),
        Data::Counted,
        Data::Bit(0),
        Data::Bit(7649),
        Data::Bit(7650),
        Data::Bit(114749),
        Data::Bit(114750),
        Data::Bit(122367),
    ] {
        payload(writer, data)?;
    }
    Ok(())
}

// A block of n bytes that is refused by the check is not extracted either.
pub(crate) fn block<W: Write>(
    writer: &mut W,
    code: Code,
    n: usize,
    data: Data,
    space: usize,
) -> io::Result<()> {
    lent(writer, Operation::Check, code, n, data, 0)?;
    lent(writer, Operation::Extract, code, n, data, space)
}

// Both kinds of frames have the same lengths, and what is refused here is refused of both.
pub(crate) fn refusals<W: Write>(writer: &mut W, code: Code) -> io::Result<()> {
    for (n, space) in [
        (0, 16319),
        (15295, 16319),
        (15297, 16319),
        (15296, 0),
        (15296, 16319),
        (15296, 16321),
    ] {
        lent(writer, Operation::Encode, code, n, Data::Each(0), space)?;
    }
    for n in [0, 16319, 16321] {
        block(writer, code, n, Data::Each(0), 15295)?;
    }
    for place in [0, 64, 124767, 124768, 124927, 124928, 130559] {
        block(writer, code, 16320, Data::Bit(place), 15296)?;
    }
    for space in [0, 15295, 15297] {
        lent(
            writer,
            Operation::Extract,
            code,
            16320,
            Data::Each(255),
            space,
        )?;
    }
    for (n, value, space) in [
        (0, 0, 0),
        (16319, 0, 16319),
        (16321, 0, 16320),
        (16320, 0, 0),
        (16320, 0, 16319),
        (16320, 0, 16321),
        (16320, 255, 16321),
        (16320, 255, 16320),
    ] {
        lent(
            writer,
            Operation::Correct,
            code,
            n,
            Data::Each(value),
            space,
        )?;
    }
    Ok(())
}

// Bits 0 to 512 are nine of inner word 0 and eight of each other one. Those eight are corrected. Inner word 0 has no code word within eight and is left; its
// nine wrong bits stand in nine symbols of outer word 0, which then has no code word within eight: uncorrectable. Nine of one inner word in nine outer words
// are corrected by the outer pass. 255 apart, 512 bits are eight of each inner word; 191 apart, 576 bits are nine of each. From 129,984 on nine bits are
// parity bits of one inner word, of which no outer word has any. 1,008 apart, 124 bits are 31 of each of four inner words, at most eight in an outer word,
// and the next five are parity bits of them; 976 apart, outer words have nine. Bit 124,927 is the last data place of inner word 63, and 124,928 the first
// parity place of inner word 0. From 124,672 on 512 bits are four data places and four parity places of each inner word; from 124,928 on 5,632 are all parity
// bits.
pub(crate) fn corrections<W: Write>(writer: &mut W) -> io::Result<()> {
    for (data, count, first, step) in [
        (Data::Each(0), 0, 0, 1),
        (Data::Each(0), 1, 0, 1),
        (Data::Each(0), 1, 130559, 1),
        (Data::Each(0), 8, 0, 64),
        (Data::Each(0), 512, 0, 1),
        (Data::Each(0), 513, 0, 1),
        (Data::Each(0), 9, 0, 12800),
        (Data::Each(0), 130560, 0, 1),
        (Data::Each(0), 1, 124927, 1),
        (Data::Each(0), 1, 124928, 1),
        (Data::Counted, 0, 0, 1),
        (Data::Counted, 512, 5, 255),
        (Data::Counted, 576, 5, 191),
        (Data::Counted, 9, 129984, 64),
        (Data::Counted, 124, 3, 1008),
        (Data::Counted, 128, 3, 976),
        (Data::Counted, 129, 3, 1008),
        (Data::Counted, 512, 124672, 1),
        (Data::Counted, 5632, 124928, 1),
    ] {
        let errors = AddedErrors {
            count,
            value: 1,
            first,
            step,
        };
        SentData::frame(Code::Frame, data).corrected(writer, errors)?;
    }
    Ok(())
}
