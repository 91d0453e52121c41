// Blocks of n rows: a row is written, or tested, by the division of its data.
ghost use Rattle.std.specs.Prelude.{◌≡◌, ◌+◌, ◌*◌, ◌≤◌, ◌<◌, length};
ghost use Rattle.words.specs.Corrections.{number, refusal_number, correction_of};
ghost use Rattle.g709.specs.Rows.{block_of, payload_of_rows, is_written};
ghost use Rattle.g709.specs.Answers.{block_encoded, block_checked, block_extracted, block_corrected};
ghost use Rattle.g709.specs.Steps.Registers.{row_written, row_agrees};

use crate::columns::PARITY;
use crate::corrector;
use crate::division::{self, DATA, ROW};
use words::Refusal;

// Bytes of the longest block, a frame.
const FRAME: usize = 4 * ROW;

// Copies the bytes. A loop: `copy_from_slice` of one slice to another calls memmove, and the archives need nothing of the C library but memcpy and memset.
fn copy(bytes: &[u8], out: &mut [u8])
    requires { length out.old ≡ length bytes.now }
    ensures len { length out.new ≡ length out.old }
    ensures after { out.new ≡ bytes.now }
{
    for i in 0..bytes.len() {
        out[i] = bytes[i];
    }
}

// Writes the row of the data: the data, and the registers after them.
fn write_row(payload: &[u8; DATA], row: &mut [u8])
    requires { length row.old ≡ 4080 }
    ensures { row.new ≡ row_written payload.now 0 row.old }
{
    let registers = division::divide(payload);
    let parity = &registers[..PARITY];
    copy(payload, &mut row[..DATA]);
    row[DATA..ROW].copy_from_slice(parity);
}

fn write_rows(payload: &[u8], n: usize, out: &mut [u8])
    requires { (n ≤ 4) × (length payload.now ≡ 3824 * n) × (length out.old ≡ 4080 * n) }
    ensures { out.new ≡ block_of n payload.now }
{
    for r in 0..n {
        let part = payload[DATA * r..DATA * (r + 1)].try_into().unwrap();
        write_row(part, &mut out[ROW * r..ROW * (r + 1)]);
    }
}

// Writes the block of the payload; `wrong_length` or BufferSize.
pub(crate) fn encode(
    payload: &[u8],
    n: usize,
    wrong_length: Refusal,
    out: &mut [u8],
) -> Result<(), Refusal>
    requires { n ≤ 4 }
    ensures { (refusal_number result, out.new) ≡ block_encoded n (number wrong_length) payload.now out.old }
{
    if payload.len() != DATA * n {
        return Err(wrong_length);
    }
    if out.len() != ROW * n {
        return Err(Refusal::BufferSize);
    }
    write_rows(payload, n, out);
    Ok(())
}

// The row ends with the parity of its data.
fn row_agrees(row: &[u8; ROW]) -> bool
    ensures { result ≡ row_agrees row.now 0 }
{
    let registers = division::divide(row[..DATA].try_into().unwrap());
    registers[..PARITY] == row[DATA..]
}

fn is_written(block: &[u8], n: usize) -> bool
    requires { (n ≤ 4) × (length block.now ≡ 4080 * n) }
    ensures { result ≡ is_written n block.now }
{
    for r in 0..n {
        if !row_agrees(block[ROW * r..ROW * (r + 1)].try_into().unwrap()) {
            return false;
        }
    }
    true
}

// Accepts a block that is written for its payload; `wrong_length` or NoCodeWord.
pub(crate) fn check(block: &[u8], n: usize, wrong_length: Refusal) -> Result<(), Refusal>
    requires { n ≤ 4 }
    ensures { refusal_number result ≡ block_checked n (number wrong_length) block.now }
{
    if block.len() != ROW * n {
        return Err(wrong_length);
    }
    if is_written(block, n) {
        Ok(())
    } else {
        Err(Refusal::NoCodeWord)
    }
}

// Writes the data of the n rows.
fn write_payload(block: &[u8], n: usize, out: &mut [u8])
    requires { (n ≤ 4) × (length block.now ≡ 4080 * n) × (length out.old ≡ 3824 * n) }
    ensures { out.new ≡ payload_of_rows n block.now }
{
    for r in 0..n {
        copy(
            &block[ROW * r..ROW * r + DATA],
            &mut out[DATA * r..DATA * (r + 1)],
        );
    }
}

// Writes the payload of a block that is written for it; `wrong_length`, BufferSize or NoCodeWord.
pub(crate) fn extract(
    block: &[u8],
    n: usize,
    wrong_length: Refusal,
    out: &mut [u8],
) -> Result<(), Refusal>
    requires { n ≤ 4 }
    ensures { (refusal_number result, out.new) ≡ block_extracted n (number wrong_length) block.now out.old }
{
    if block.len() != ROW * n {
        return Err(wrong_length);
    }
    if out.len() != DATA * n {
        return Err(Refusal::BufferSize);
    }
    if !is_written(block, n) {
        return Err(Refusal::NoCodeWord);
    }
    write_payload(block, n, out);
    Ok(())
}

// Writes the restored block; `wrong_length`, BufferSize or Uncorrectable. A copy is corrected, and written only if all of its words could be.
pub(crate) fn correct(
    block: &[u8],
    n: usize,
    wrong_length: Refusal,
    out: &mut [u8],
) -> Result<u16, Refusal>
    requires { n ≤ 4 }
    ensures { (correction_of result, out.new) ≡ block_corrected n (number wrong_length) block.now out.old }
{
    if block.len() != ROW * n {
        return Err(wrong_length);
    }
    if out.len() != ROW * n {
        return Err(Refusal::BufferSize);
    }
    let mut space = [0; FRAME];
    let copy = &mut space[..ROW * n];
    copy.copy_from_slice(block);
    let Some(changed) = corrector::restore(block, n, copy) else {
        return Err(Refusal::Uncorrectable);
    };
    out.copy_from_slice(copy);
    Ok(changed)
}
