// Data that a row lends or has encoded.
use std::fmt;

#[derive(Clone, Copy)]
pub(crate) enum Data {
    // One value, in each place.
    Each(u16),

    // Bytes that are counted modulo 251.
    Counted,

    // Zeros but for four symbols, or four bits.
    SparseSymbols,
    SparseBytes,

    // Nine symbols of the shortest code word of data 2, then zeros.
    Near,

    // Zeros but for the bit at one place.
    Bit(usize),
}

impl Data {
    const NEAR: [u16; 9] = [2, 121, 69, 465, 417, 285, 979, 473, 54];

    fn value_at(self, i: usize) -> u16 {
        match self {
            Data::Each(value) => value,
            Data::Counted => (i % 251) as u16,
            Data::SparseSymbols => match i {
                0 => 1,
                1 => 1023,
                400 => 512,
                761 => 4,
                _ => 0,
            },
            Data::SparseBytes => match i {
                0 => 128,
                100 => 3,
                243 => 1,
                _ => 0,
            },
            Data::Near => Data::NEAR.get(i).copied().unwrap_or(0),
            Data::Bit(place) if place / 8 == i => 128 >> (place % 8),
            Data::Bit(_) => 0,
        }
    }

    pub(crate) fn fill(self, values: &mut [u16]) {
        for (i, value) in values.iter_mut().enumerate() {
            *value = self.value_at(i);
        }
    }
}

impl fmt::Display for Data {
    fn fmt<W: fmt::Write>(&self, f: &mut fmt::Formatter<W>) -> fmt::Result {
        match self {
            Data::Each(value) => write!(f, "each {value}"),
            Data::Counted => write!(f, "counted modulo 251"),
            Data::SparseSymbols | Data::SparseBytes => {
                write!(f, "zeros but for four symbols or bits")
            }
            Data::Near => write!(f, "nine symbols of a code word, then zeros"),
            Data::Bit(place) => write!(f, "zeros but for bit {place}"),
        }
    }
}
