// Rows on the logging of corrections, of zero frames with inverted bits: the three counters after each answer (frames, uncorrectable blocks, bits), and worst
// lists.
ghost use Rattle.std.specs.Prelude.{◌<◌};

use crate::calls::Code;
use crate::damage::AddedErrors;
use crate::values::{MOST, to_bytes};
use frames::{Frame, Report};
use logging::Counters;
use std::io::Write;
use std::{fmt, io};

// Wrong bits of a frame.
fn bits(count: usize, first: usize, step: u16) -> AddedErrors {
    AddedErrors {
        count,
        value: 1,
        first,
        step,
    }
}

fn describe<W: Write>(writer: &mut W, errors: AddedErrors) -> io::Result<()> {
    let AddedErrors {
        count,
        first,
        step,
        ..
    } = errors;
    write!(writer, ", errors {count} from {first} apart {step}")
}

// The report on a zero frame's first n bytes with errors, and a buffer of so much space.
fn report(block: &[u16; MOST], n: usize, space: usize) -> Report {
    let mut bytes = [0u8; MOST];
    let mut out = [9u8; MOST];
    to_bytes(block, &mut bytes);
    frames::correct_frame(&bytes[..n.min(MOST)], &mut out[..space.min(MOST)])
}

fn show<W: Write>(writer: &mut W, counters: Counters) -> io::Result<()> {
    let Counters {
        frames,
        uncorrectable,
        bits,
    } = counters;
    writeln!(writer, "counters: {frames} {uncorrectable} {bits}")
}

// The counters after the answer to a block of n bytes and a buffer of so much space.
fn counted<W: Write>(
    writer: &mut W,
    counters: Counters,
    errors: AddedErrors,
    n: usize,
    space: usize,
) -> io::Result<Counters> {
    let mut block = [0u16; MOST];
    errors.add(Code::Frame, &mut block);
    let answer = report(&block, n, space);
    let after = counters.counted(answer);
    let refusal = answer.refusal;
    write!(writer, "counted, length {n}")?;
    describe(writer, errors)?;
    write!(writer, ", buffer of {space}, refusal {refusal}, ")?;
    show(writer, after)?;
    Ok(after)
}

// Each answer once; cleared again; then from numbers just below the largest, which they reach or stop at, and where they stay.
pub(crate) fn counters<W: Write>(writer: &mut W) -> io::Result<()> {
    let mut counters = Counters::cleared();
    for (errors, n, space) in [
        (bits(0, 0, 1), 16320, 16320),
        (bits(8, 0, 64), 16320, 16320),
        (bits(512, 0, 1), 16320, 16320),
        (bits(513, 0, 1), 16320, 16320),
        (bits(0, 0, 1), 16319, 16320),
        (bits(0, 0, 1), 16320, 16319),
    ] {
        counters = counted(writer, counters, errors, n, space)?;
    }
    write!(writer, "cleared, ")?;
    show(writer, Counters::cleared())?;
    let mut counters = Counters {
        frames: u32::MAX - 1,
        uncorrectable: u32::MAX - 1,
        bits: u32::MAX - 5,
    };
    write!(writer, "set, ")?;
    show(writer, counters)?;
    for errors in [
        bits(8, 0, 64),
        bits(513, 0, 1),
        bits(8, 0, 64),
        bits(513, 0, 1),
    ] {
        counters = counted(writer, counters, errors, 16320, 16320)?;
    }
    Ok(())
}

// How many wrong bits an inner word has: so many, or in inner word k (5 k) mod 9.
#[derive(Clone, Copy)]
enum PerWord {
    Each(usize),
    Graded,
}

impl PerWord {
    fn of(self, k: usize) -> usize
        requires { k < 64 }
    {
        match self {
            PerWord::Each(count) => count,
            PerWord::Graded => (5 * k) % 9,
        }
    }
}

impl fmt::Display for PerWord {
    fn fmt<W: fmt::Write>(&self, f: &mut fmt::Formatter<W>) -> fmt::Result {
        match self {
            PerWord::Each(count) => write!(f, "{count}"),
            PerWord::Graded => write!(f, "(5 k) mod 9"),
        }
    }
}

// Wrong bits of inner words k = first, first + step, .., side by side from place `from` + k mod 7.
#[derive(Clone, Copy)]
struct InWords {
    bits: PerWord,
    first: u16,
    step: u16,
    from: u16,
}

impl InWords {
    fn add(self, block: &mut [u16])
        requires { 0 < self.step }
    {
        let first = usize::from(self.first);
        for k in first..Frame::INNER_WORDS {
            if (k - first) % usize::from(self.step) == 0 {
                let place = 64 * (usize::from(self.from) + k % 7) + k;
                bits(self.bits.of(k), place, 64).add(Code::Frame, block);
            }
        }
    }
}

impl fmt::Display for InWords {
    fn fmt<W: fmt::Write>(&self, f: &mut fmt::Formatter<W>) -> fmt::Result {
        let InWords {
            bits,
            first,
            step,
            from,
        } = *self;
        let second = u32::from(first) + u32::from(step);
        write!(
            f,
            "{bits} errors of inner words k = {first}, {second}, .. from place {from} + k mod 7"
        )
    }
}

fn show_worst<W: Write>(writer: &mut W, answer: Report) -> io::Result<()> {
    write!(writer, ":")?;
    for k in logging::worst_words(answer) {
        write!(writer, " {k}")?;
    }
    writeln!(writer)
}

fn worst<W: Write>(writer: &mut W, errors: AddedErrors) -> io::Result<()> {
    let mut block = [0u16; MOST];
    write!(writer, "worst list")?;
    describe(writer, errors)?;
    errors.add(Code::Frame, &mut block);
    show_worst(writer, report(&block, 16320, 16320))
}

fn worst_in_words<W: Write>(writer: &mut W, errors: InWords) -> io::Result<()>
    requires { 0 < errors.step }
{
    let mut block = [0u16; MOST];
    write!(writer, "worst list, {errors}")?;
    errors.add(&mut block);
    show_worst(writer, report(&block, 16320, 16320))
}

// A report that no correction gives: the totals of all but the first five inner words are more than 16 bits hold. Totals, data places and numbers of words all
// have a say in its list.
fn beyond_a_report() -> Report {
    let mut in_data = [0u16; Frame::INNER_WORDS];
    let mut in_parity = [0u16; Frame::INNER_WORDS];
    for k in 0..64u16 {
        in_data[usize::from(k)] = 65535 - 512 * (k % 2);
        in_parity[usize::from(k)] = 512 * (k % 2) + 4096 * (k / 5);
    }
    Report {
        refusal: 0,
        data: in_data,
        parity: in_parity,
        sum: 0,
    }
}

// 512 errors are eight of each inner word. Graded ones leave out words with as many errors as the last one listed, and words with fewer; by the data places
// or the parity places alone their list would be another one. After them ties: eight words with different data places, and 22; three words equal in both
// numbers, and sixteen; all 64, with parity places alone.
pub(crate) fn worst_lists<W: Write>(writer: &mut W) -> io::Result<()> {
    for errors in [
        bits(0, 0, 1),
        bits(5, 37, 64),
        bits(9, 1, 12800),
        bits(512, 0, 1),
    ] {
        worst(writer, errors)?;
    }
    for (bits, first, step, from) in [
        (PerWord::Graded, 0, 1, 1946),
        (PerWord::Each(4), 0, 9, 1948),
        (PerWord::Each(4), 0, 3, 1948),
        (PerWord::Each(2), 7, 21, 1951),
        (PerWord::Each(4), 1, 4, 0),
        (PerWord::Each(8), 0, 1, 1952),
    ] {
        let errors = InWords {
            bits,
            first,
            step,
            from,
        };
        worst_in_words(writer, errors)?;
    }
    worst(writer, bits(513, 0, 1))?;
    write!(
        writer,
        "worst list, data places 65535 - 512 (k mod 2) and parity places 512 (k mod 2) + 4096 (k div 5) of each inner word k"
    )?;
    show_worst(writer, beyond_a_report())
}
