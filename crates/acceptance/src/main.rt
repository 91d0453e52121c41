// The rows of documents 01 and 02 that are run by a program: single words, frames, their correction, and its logging; G.709 frames and rows. A line names the
// call and what it is lent, and gives the answer: 0 or the refusal's number; of a correction then its numbers: changed symbols of an outer word, changed bytes of
// a G.709 frame or row, changed data places and parity places of an inner word, the sum of a frame's report and the digests of its data places and its parity
// places; last the buffer. `stdout` is what tests/vectors makes with the second encoder and decoder.
#![tactic(auto)]

mod calls;
mod damage;
mod data;
mod frame_rows;
mod g709_rows;
mod lines;
mod logging_rows;
mod rows;
mod values;
mod word_rows;

use std::io;

fn main(rt: HostRuntime) -> io::Result<()> {
    let mut writer = io::writer(&rt);
    word_rows::outer(&mut writer)?;
    word_rows::inner(&mut writer)?;
    word_rows::corrections(&mut writer)?;
    frame_rows::payloads(&mut writer)?;
    frame_rows::refusals(&mut writer, calls::Code::Frame)?;
    frame_rows::corrections(&mut writer)?;
    logging_rows::counters(&mut writer)?;
    logging_rows::worst_lists(&mut writer)?;
    g709_rows::payloads(&mut writer)?;
    frame_rows::refusals(&mut writer, calls::Code::G709)?;
    g709_rows::refusals(&mut writer)?;
    g709_rows::row_corrections(&mut writer)?;
    g709_rows::frame_corrections(&mut writer)
}
