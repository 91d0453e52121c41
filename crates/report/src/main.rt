// One received block goes in on standard input, and a report on its correction comes out on standard output: a line "mended" with the number of wrong bits,
// then a line "inner" for each inner word of the worst list, with its number, its wrong data places and its wrong parity places; or the single line "refused"
// with the refusal's number. What is printed is the answer of frames::correct_frame and logging::worst_words.
#![tactic(auto)]

ghost use Rattle.std.specs.Prelude.{◌≡◌, ◌≤◌, length, take, IfOk, OnOk, IfSome};
ghost use Rattle.std.specs.Io.KnownBytes.{Appends};
ghost use Rattle.report.specs.Printed.{inner_line, listed, printed, report_on};

use frames::{Frame, Report};
use std::io;
use std::io::{Read, Write};

// The line of inner word k; none for an empty place of the list.
#[tactic(auto, using(crate::proofs::Written::appends_then, crate::proofs::Written::appends_nothing), unfolding(crate::specs::Printed::inner_line, crate::specs::Printed::line))]
fn inner_word<W: Write>(writer: &mut W, report: &Report, k: usize) -> io::Result<()>
    ensures { OnOk result (Appends (W.contents writer.old) (W.contents writer.new) (inner_line (report.now.data, report.now.parity) k)) }
{
    if k < logging::EMPTY {
        let in_data = report.data[k];
        let in_parity = report.parity[k];
        writeln!(writer, "inner {k} {in_data} {in_parity}")?;
    }
    Ok(())
}

fn worst_words<W: Write>(writer: &mut W, report: Report) -> io::Result<()>
    ensures { OnOk result (Appends (W.contents writer.old) (W.contents writer.new) (listed (report.«data», report.parity))) }
{
    for k in logging::worst_words(report) {
        inner_word(writer, &report, usize::from(k))?;
    }
    Ok(())
}

#[tactic(auto, using(crate::proofs::Written::appends_then), unfolding(crate::specs::Printed::printed, crate::specs::Printed::line))]
fn print<W: Write>(writer: &mut W, report: Report) -> io::Result<()>
    ensures { OnOk result (Appends (W.contents writer.old) (W.contents writer.new) (printed report.refusal (report.«data», report.parity) report.sum)) }
{
    let Report { refusal, sum, .. } = report;
    if refusal == 0 {
        writeln!(writer, "mended {sum}")?;
        worst_words(writer, report)
    } else {
        writeln!(writer, "refused {refusal}")
    }
}

// Reads until the buffer is full or the input ends, and gives how many bytes were read, which stand at its start.
fn read_full<R: Read>(reader: &mut R, buffer: &mut [u8]) -> io::Result<usize>
    ensures bound { IfOk result (λ n. n ≤ length buffer.new) }
    ensures bytes { IfOk result (λ n. IfSome (R.remaining reader.old) (λ input. take n buffer.new ≡ take (length buffer.old) input)) }
{
    let mut done: usize = 0;
    while done < buffer.len() {
        match reader.read(&mut buffer[done..])? {
            0 => break,
            n => done += n,
        }
    }
    Ok(done)
}

// Takes one block from the reader and writes the report on it. One byte more than a block is asked for: longer input has it, and is refused by its length.
fn answer<R: Read, W: Write>(reader: &mut R, writer: &mut W) -> io::Result<()>
    ensures { OnOk result (IfSome (R.remaining reader.old) (λ input. Appends (W.contents writer.old) (W.contents writer.new) (report_on input))) }
{
    let mut input = [0u8; Frame::BYTES + 1];
    let n = read_full(reader, &mut input)?;
    let mut frame = [0u8; Frame::BYTES];
    print(writer, frames::correct_frame(&input[..n], &mut frame))?;
    Ok(())
}

fn main(rt: HostRuntime) -> io::Result<()> {
    answer(&mut rt.stdin(), &mut io::writer(&rt))
}
