// The library's calls, each an operation on a code. Values go in and out as 16-bit numbers, which are narrowed to bytes and widened again where a call takes
// bytes. A call's answer is printed: 0 or the refusal's number; then of a corrected outer word how many symbols were changed, of a G.709 frame or row how many
// bytes, of an inner word how many data places and how many parity places, and of a frame the sum and the digests of both counts of its inner words.
use crate::values::{MOST, digest, from_bytes, to_bytes};
use frames::Report;
use std::fmt;
use words::{InnerChanges, Refusal};

#[derive(Clone, Copy)]
pub(crate) enum Operation {
    Check,
    Encode,
    Extract,
    Correct,
}

impl fmt::Display for Operation {
    fn fmt<W: fmt::Write>(&self, f: &mut fmt::Formatter<W>) -> fmt::Result {
        f.write_str(match self {
            Operation::Check => "check",
            Operation::Encode => "encode",
            Operation::Extract => "extract",
            Operation::Correct => "correct",
        })
    }
}

#[derive(Clone, Copy)]
pub(crate) enum Code {
    Outer,
    Inner,
    Frame,
    G709,
    Row,
}

impl fmt::Display for Code {
    fn fmt<W: fmt::Write>(&self, f: &mut fmt::Formatter<W>) -> fmt::Result {
        f.write_str(match self {
            Code::Outer => "outer",
            Code::Inner => "inner",
            Code::Frame => "frame",
            Code::G709 => "g709",
            Code::Row => "row",
        })
    }
}

#[derive(Clone, Copy)]
pub(crate) enum Answer {
    // Of a check, an encoder or an extraction.
    Done(Result<(), Refusal>),

    // Of a correction.
    Changes(Result<u16, Refusal>),
    InnerChanges(Result<InnerChanges, Refusal>),
    Report(Report),
}

impl fmt::Display for Answer {
    fn fmt<W: fmt::Write>(&self, f: &mut fmt::Formatter<W>) -> fmt::Result {
        match *self {
            Answer::Done(Ok(())) => write!(f, " 0"),
            Answer::Done(Err(refusal)) => write!(f, " {}", refusal as u8),
            Answer::Changes(Ok(changed)) => write!(f, " 0 {changed}"),
            Answer::Changes(Err(refusal)) => write!(f, " {} 0", refusal as u8),
            Answer::InnerChanges(Ok(InnerChanges { data, parity })) => {
                write!(f, " 0 {data} {parity}")
            }
            Answer::InnerChanges(Err(refusal)) => write!(f, " {} 0 0", refusal as u8),
            Answer::Report(report) => {
                let Report { refusal, sum, .. } = report;
                let in_data = digest(&report.data);
                let in_parity = digest(&report.parity);
                write!(f, " {refusal} {sum} {in_data} {in_parity}")
            }
        }
    }
}

// Single words have no extraction.
fn outer(operation: Operation, word: &[u16], out: &mut [u16]) -> Answer {
    match operation {
        Operation::Check => Answer::Done(words::check_outer(word)),
        Operation::Encode => Answer::Done(words::encode_outer(word, out)),
        _ => Answer::Changes(words::correct_outer(word, out)),
    }
}

fn inner(operation: Operation, word: &[u8], out: &mut [u8]) -> Answer {
    match operation {
        Operation::Check => Answer::Done(words::check_inner(word)),
        Operation::Encode => Answer::Done(words::encode_inner(word, out)),
        _ => Answer::InnerChanges(words::correct_inner(word, out)),
    }
}

fn frame(operation: Operation, block: &[u8], out: &mut [u8]) -> Answer {
    match operation {
        Operation::Check => Answer::Done(frames::check_frame(block)),
        Operation::Encode => Answer::Done(frames::encode_frame(block, out)),
        Operation::Extract => Answer::Done(frames::extract_payload(block, out)),
        Operation::Correct => Answer::Report(frames::correct_frame(block, out)),
    }
}

fn g709_frame(operation: Operation, block: &[u8], out: &mut [u8]) -> Answer {
    match operation {
        Operation::Check => Answer::Done(g709::check(block)),
        Operation::Encode => Answer::Done(g709::encode(block, out)),
        Operation::Extract => Answer::Done(g709::extract(block, out)),
        Operation::Correct => Answer::Changes(g709::correct(block, out)),
    }
}

fn row(operation: Operation, bytes: &[u8], out: &mut [u8]) -> Answer {
    match operation {
        Operation::Check => Answer::Done(g709::check_row(bytes)),
        Operation::Encode => Answer::Done(g709::encode_row(bytes, out)),
        Operation::Extract => Answer::Done(g709::extract_row(bytes, out)),
        Operation::Correct => Answer::Changes(g709::correct_row(bytes, out)),
    }
}

// A buffer for bytes holds nines before the call, as each row's buffer does.
pub(crate) fn call(operation: Operation, code: Code, values: &[u16], out: &mut [u16]) -> Answer {
    let mut bytes = [0u8; MOST];
    let mut answered = [9u8; MOST];
    to_bytes(values, &mut bytes);
    let lent = &bytes[..values.len().min(MOST)];
    let free = &mut answered[..out.len().min(MOST)];
    let answer = match code {
        Code::Outer => return outer(operation, values, out),
        Code::Inner => inner(operation, lent, free),
        Code::Frame => frame(operation, lent, free),
        Code::G709 => g709_frame(operation, lent, free),
        Code::Row => row(operation, lent, free),
    };
    from_bytes(free, out);
    answer
}
