// Errors in what is received.
use crate::calls::Code;
use frames::Frame;
use std::fmt;

const FRAME_BITS: usize = Frame::BYTES * 8;

// In an inner word or a frame, an inverted bit; else an error in a symbol of an outer word, or in a byte of a G.709 frame or row, going round at the end of a
// frame.
pub(crate) fn add_error(code: Code, values: &mut [u16], place: usize, error: u16) {
    let (i, error) = match code {
        Code::Inner | Code::Frame => (place / 8, 128 >> (place % 8)),
        Code::Outer | Code::G709 | Code::Row => (place % Frame::BYTES, error),
    };
    if let Some(value) = values.get_mut(i) {
        *value ^= error;
    }
}

// So many errors of one value: at the first place, and at others `step` apart, going round at the end of a frame.
#[derive(Clone, Copy)]
pub(crate) struct AddedErrors {
    pub(crate) count: usize,
    pub(crate) value: u16,
    pub(crate) first: usize,
    pub(crate) step: u16,
}

impl AddedErrors {
    // None, as the lines of the rows without errors say it.
    pub(crate) const NONE: AddedErrors = AddedErrors {
        count: 0,
        value: 1,
        first: 0,
        step: 0,
    };

    pub(crate) fn add(self, code: Code, values: &mut [u16]) {
        let mut place = self.first % FRAME_BITS;
        for _ in 0..self.count {
            add_error(code, values, place, self.value);
            place = (place + usize::from(self.step)) % FRAME_BITS;
        }
    }
}

impl fmt::Display for AddedErrors {
    fn fmt<W: fmt::Write>(&self, f: &mut fmt::Formatter<W>) -> fmt::Result {
        let AddedErrors {
            count,
            value,
            first,
            step,
        } = *self;
        write!(
            f,
            "errors {count} of value {value} from {first} apart {step}"
        )
    }
}
