// Rows on single words: lengths, symbols above 1,023 and buffers that are refused, parity, and words with errors.
use crate::calls::{Code, Operation};
use crate::damage::{AddedErrors, add_error};
use crate::data::Data;
use crate::rows::{SentData, lent, received_as};
use crate::values::MOST;
use std::io;
use std::io::Write;

// The last data bit of an inner word: its code word is the divisor.
const DIVISOR: Data = Data::Bit(1951);

// The shortest outer word: one symbol of data.
fn shortest(symbol: u16) -> SentData {
    SentData {
        code: Code::Outer,
        data_length: 1,
        data: Data::Each(symbol),
        length: 17,
    }
}

fn inner_word(data: Data) -> SentData {
    SentData {
        code: Code::Inner,
        data_length: 244,
        data,
        length: 255,
    }
}

pub(crate) fn outer<W: Write>(writer: &mut W) -> io::Result<()> {
    for n in [0, 16, 17, 1023, 1024] {
        lent(writer, Operation::Check, Code::Outer, n, Data::Each(0), 0)?;
    }
    for (symbol, count, value, first) in [
        (0, 1, 1023, 3),
        (0, 1, 1024, 3),
        (2, 0, 0, 0),
        (2, 1, 1, 16),
    ] {
        let errors = AddedErrors {
            count,
            value,
            first,
            step: 0,
        };
        shortest(symbol).received(writer, Operation::Check, errors, 0)?;
    }
    for (n, data, space) in [
        (1, Data::Each(1), 16),
        (1, Data::Each(2), 16),
        (765, Data::Each(1023), 16),
        (1007, Data::Each(1), 16),
        (762, Data::SparseSymbols, 16),
        (0, Data::Each(0), 15),
        (1008, Data::Each(0), 16),
        (2, Data::Each(1024), 0),
        (2, Data::Each(1024), 15),
        (2, Data::Each(1024), 17),
        (2, Data::Each(1024), 16),
    ] {
        lent(writer, Operation::Encode, Code::Outer, n, data, space)?;
    }
    for (n, data, space) in [
        (17, Data::Near, 17),
        (0, Data::Each(0), 17),
        (16, Data::Each(0), 16),
        (17, Data::Each(0), 17),
        (1024, Data::Each(0), 1024),
        (17, Data::Each(1024), 16),
        (17, Data::Each(1024), 17),
    ] {
        lent(writer, Operation::Correct, Code::Outer, n, data, space)?;
    }
    Ok(())
}

pub(crate) fn inner<W: Write>(writer: &mut W) -> io::Result<()> {
    for n in [0, 254, 255, 256] {
        lent(writer, Operation::Check, Code::Inner, n, Data::Each(0), 0)?;
    }
    for (data, count, first) in [(Data::Each(0), 1, 0), (DIVISOR, 0, 0), (DIVISOR, 1, 2039)] {
        let errors = AddedErrors {
            count,
            value: 1,
            first,
            step: 0,
        };
        inner_word(data).received(writer, Operation::Check, errors, 0)?;
    }
    for (n, data, space) in [
        (244, DIVISOR, 11),
        (244, Data::Each(255), 11),
        (244, Data::SparseBytes, 11),
        (0, Data::Each(0), 10),
        (243, Data::Each(0), 11),
        (245, Data::Each(0), 11),
        (244, Data::Each(0), 0),
        (244, Data::Each(0), 10),
        (244, Data::Each(0), 12),
    ] {
        lent(writer, Operation::Encode, Code::Inner, n, data, space)?;
    }
    for (n, space) in [
        (0, 255),
        (254, 254),
        (255, 255),
        (256, 256),
        (255, 254),
        (255, 256),
    ] {
        lent(
            writer,
            Operation::Correct,
            Code::Inner,
            n,
            Data::Each(0),
            space,
        )?;
    }
    Ok(())
}

// The values of errors that are listed by their places.
const VALUES: [u16; 9] = [1, 101, 201, 301, 401, 501, 601, 701, 801];

fn errors<W: Write>(writer: &mut W, sent: SentData, places: &[usize]) -> io::Result<()> {
    let mut word = [0u16; MOST];
    let count = places.len();
    sent.encoded(writer, Operation::Correct, &mut word)?;
    write!(writer, ", errors {count}")?;
    for (place, value) in places.iter().zip(&VALUES) {
        add_error(sent.code, &mut word, *place, *value);
    }
    received_as(writer, Operation::Correct, sent, &word, sent.length)
}

// One error, at each of three places; then errors at nine places, none at first, then one more in each row.
fn corrected<W: Write>(
    writer: &mut W,
    sent: SentData,
    value: u16,
    places: [usize; 9],
) -> io::Result<()> {
    for first in [places[0], places[2], places[1]] {
        let errors = AddedErrors {
            count: 1,
            value,
            first,
            step: 0,
        };
        sent.corrected(writer, errors)?;
    }
    for count in 0..10 {
        errors(writer, sent, &places[..count])?;
    }
    Ok(())
}

// The shortest outer word, one of a frame and the longest; inner words with errors anywhere, in the parity alone, and in the data alone, then on both sides of
// the border between places 1,951 and 1,952.
pub(crate) fn corrections<W: Write>(writer: &mut W) -> io::Result<()> {
    let of_a_frame = SentData {
        code: Code::Outer,
        data_length: 765,
        data: Data::Each(1023),
        length: 781,
    };
    let longest = SentData {
        code: Code::Outer,
        data_length: 1007,
        data: Data::Each(1),
        length: 1023,
    };
    for (sent, places) in [
        (shortest(2), [0, 16, 8, 1, 15, 9, 2, 14, 10]),
        (of_a_frame, [0, 780, 390, 1, 779, 391, 2, 778, 392]),
        (longest, [0, 1022, 511, 1, 1021, 512, 2, 1020, 513]),
    ] {
        corrected(writer, sent, 1023, places)?;
    }
    for places in [
        [0, 2039, 1020, 1, 2038, 1021, 2, 2037, 1022],
        [1952, 2039, 1995, 1953, 2038, 1996, 1954, 2037, 1997],
        [1951, 0, 976, 1950, 1952, 1949, 1953, 1948, 1954],
    ] {
        corrected(writer, inner_word(Data::Each(255)), 1, places)?;
    }
    Ok(())
}
