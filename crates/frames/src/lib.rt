// Frames of G.975.1, appendix I.4: the frame of a payload, whether a block is a frame, the payload of a frame, and the frame restored from a received block.
//
//     encode   the payload's bits, ten to a symbol, make sixteen outer words with their parity symbols, the outer symbols (module outer_words); their
//              bits, but for the two padding bits, are the frame's first bytes; the parity bits of the 64 inner words follow (crate inner_words)
//     check    a frame is a block whose outer words (module outer_test) and inner words are all code words
//     extract  after the same test, the block's bytes make the outer symbols again, and the data symbols among them are the payload
//     correct  inner pass: the inner words of a copy of the block that are no code words become the code words within eight places, those that have none
//              stay; outer pass: the copy's bytes make one outer word after the other, which becomes the code word within eight symbols; if each has one,
//              the copy becomes their frame, sent and with parity bits made as in encoding; a copy that is a frame after the inner pass stays as it is.
//              Then the frame is written, and the report compares it with the block (module comparison)
//
// Every input is answered; a refusal leaves the output buffer as it was. Where there is more than one fault, the order is 1 (length of the payload) or 2 (length
// of the block), 3 (size of the output buffer), then 4 (no frame) or 5 (uncorrectable).
#![tactic(auto)]

ghost use Rattle.std.specs.Prelude.{◌≡◌, true, ◌&&◌, length, is_some};
ghost use Rattle.std.proofs.Math.Option.{some};
ghost use Rattle.words.specs.Bits.{bit_at};
ghost use Rattle.words.specs.Answers.{number, refusal_number};
ghost use Rattle.inner_words.specs.Steps.Passes.{inner_codes};
ghost use Rattle.frames.specs.Correction.{outer_frame, restored_frame};
ghost use Rattle.frames.specs.Steps.Received.{outer_codes};
ghost use Rattle.frames.specs.Steps.Passes.{provided};
ghost use Rattle.frames.specs.Answers.{frame_encoded, frame_checked, payload_extracted, no_counts, reported, frame_corrected};

use inner_words::Interleaved;
pub use words::Refusal;

mod bits;
mod comparison;
mod outer_test;
mod outer_words;

// The frame and its parts.
#[derive(Clone, Copy)]
pub struct Frame;

impl Frame {
    // Outer words, and the symbols that each has place for.
    pub const WORDS: usize = 16;

    pub const WORD_SYMBOLS: usize = Frame::DATA_SYMBOLS + words::Outer::PARITY;

    // Data symbols of an outer word, and of the last one.
    pub const DATA_SYMBOLS: usize = 765;

    pub const LAST_DATA_SYMBOLS: usize = 762;

    // The symbols of all outer words.
    pub const OUTER_SYMBOLS: usize = Frame::WORDS * Frame::WORD_SYMBOLS;

    pub const SYMBOL_BITS: usize = 10;

    // The padding bits of the last outer word, which are not sent.
    pub const PADDING: usize = 2;

    pub const PAYLOAD_BYTES: usize = 15_296;

    pub const INNER_WORDS: usize = Interleaved::WORDS;

    // The bytes of the data places of all inner words, and of all their places.
    pub const DATA_BYTES: usize = Interleaved::DATA_BYTES;

    pub const BYTES: usize = Interleaved::BYTES;
}

// Writes the frame of the payload.
pub fn encode_frame(payload: &[u8], out: &mut [u8]) -> Result<(), Refusal>
    ensures { (refusal_number result, out.new) ≡ frame_encoded payload.now out.old }
{
    let Ok(payload) = <&[u8; Frame::PAYLOAD_BYTES]>::try_from(payload) else {
        return Err(Refusal::PayloadLength);
    };
    if out.len() != Frame::BYTES {
        return Err(Refusal::BufferSize);
    }
    let mut outer = [0; Frame::OUTER_SYMBOLS];
    outer_words::encode(payload, &mut outer);
    outer_words::send(&outer, out);
    inner_words::encode(out);
    Ok(())
}

// The outer words of the block and its inner words are all code words.
fn is_frame(block: &[u8; Frame::BYTES]) -> bool
    ensures { result ≡ (outer_codes (bit_at block.now) && inner_codes (bit_at block.now)) }
{
    outer_test::are_code_words(block) && inner_words::are_code_words(block)
}

// Whether the block is a frame.
pub fn check_frame(block: &[u8]) -> Result<(), Refusal>
    ensures { refusal_number result ≡ frame_checked block.now }
{
    let Ok(block) = <&[u8; Frame::BYTES]>::try_from(block) else {
        return Err(Refusal::BlockLength);
    };
    if is_frame(block) {
        Ok(())
    } else {
        Err(Refusal::NoCodeWord)
    }
}

// Writes the payload of the frame.
pub fn extract_payload(block: &[u8], out: &mut [u8]) -> Result<(), Refusal>
    ensures { (refusal_number result, out.new) ≡ payload_extracted block.now out.old }
{
    let Ok(block) = <&[u8; Frame::BYTES]>::try_from(block) else {
        return Err(Refusal::BlockLength);
    };
    if out.len() != Frame::PAYLOAD_BYTES {
        return Err(Refusal::BufferSize);
    }
    if !is_frame(block) {
        return Err(Refusal::NoCodeWord);
    }
    let mut outer = [0; Frame::OUTER_SYMBOLS];
    outer_words::receive(block, &mut outer);
    outer_words::extract(&outer, out);
    Ok(())
}

// What a correction answers: the refusal's number, or 0; then for each inner word in how many of its data places, and in how many of its parity places, received
// block and restored frame differ, and the sum of all these counts. A refusal carries its number and nothing else: its counts are 0. It is a number, since crate
// logging promises something for every report.
#[derive(Clone, Copy)]
pub struct Report {
    pub refusal: u8,
    pub data: [u16; Frame::INNER_WORDS],
    pub parity: [u16; Frame::INNER_WORDS],
    pub sum: u32,
}

fn refused(refusal: Refusal) -> Report
    ensures { (result.refusal ≡ number refusal) × (result.«data» ≡ no_counts) × (result.parity ≡ no_counts) × (result.sum ≡ 0) }
{
    Report {
        refusal: refusal.into(),
        data: [0; Frame::INNER_WORDS],
        parity: [0; Frame::INNER_WORDS],
        sum: 0,
    }
}

// The outer pass over a block after the inner pass: the block becomes the frame of the restored outer words, unless some outer word has none. A block that is a
// frame already is that frame; `inner` is true only if its inner words are code words. Not inlined: its arrays are then not
// on the stack together with those of the inner pass.
#[inline(never)]
fn outer_pass(frame: &mut [u8; Frame::BYTES], inner: bool) -> Option<()>
    requires { inner ≡ true → inner_codes (bit_at frame.old) ≡ true }
    ensures { provided (is_some result) frame.new ≡ outer_frame (bit_at frame.old) }
{
    if inner && outer_test::are_code_words(frame) {
        return Some(());
    }
    let mut outer = [0; Frame::OUTER_SYMBOLS];
    outer_words::correct(frame, &mut outer)?;
    outer_words::send(&outer, frame);
    inner_words::encode(frame);
    Some(())
}

// The two passes over a copy of the received block, which becomes the restored frame, if there is one.
fn restore_frame(frame: &mut [u8; Frame::BYTES]) -> Option<()>
    ensures { provided (is_some result) frame.new ≡ restored_frame frame.old }
{
    let left = inner_words::correct(frame);
    outer_pass(frame, left == 0)
}

// Writes the restored frame, and gives its report: the one place where a correction writes into the output buffer.
fn conclude(block: &[u8; Frame::BYTES], frame: &[u8; Frame::BYTES], out: &mut [u8]) -> Report
    requires { length out.old ≡ 16320 }
    ensures { (result.refusal, result.«data», result.parity, result.sum, out.new) ≡ reported block.now out.old (some frame.now) }
{
    out.copy_from_slice(frame);
    let data = comparison::counts(block, frame, 0, Interleaved::DATA_PLACES);
    let parity = comparison::counts(block, frame, Interleaved::DATA_PLACES, words::Inner::PLACES);
    let sum = comparison::sum(&data) + comparison::sum(&parity);
    Report {
        refusal: 0,
        data,
        parity,
        sum,
    }
}

// Writes the restored frame and gives the report; 2, 3 or 5.
pub fn correct_frame(block: &[u8], out: &mut [u8]) -> Report
    ensures { (result.refusal, result.«data», result.parity, result.sum, out.new) ≡ frame_corrected block.now out.old }
{
    let Ok(block) = <&[u8; Frame::BYTES]>::try_from(block) else {
        return refused(Refusal::BlockLength);
    };
    if out.len() != Frame::BYTES {
        return refused(Refusal::BufferSize);
    }
    let mut frame = *block;
    if restore_frame(&mut frame).is_none() {
        return refused(Refusal::Uncorrectable);
    }
    conclude(block, &frame, out)
}
