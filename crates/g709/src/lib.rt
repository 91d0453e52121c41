// RS(255,239) frames of G.709 for the older terminals, and single rows of them: encoder, checker, extractor and corrector.
//
// A row has 4,080 bytes: sixteen Reed-Solomon words over field C, byte j in word j mod 16, so that a column of sixteen bytes is one byte of each word. A frame has four rows.
//     encode   the sixteen words of a row are divided by the generator at once, a column at a step; what is left is the parity (modules columns and division)
//     check    the parity of a row's data is compared with the parity that stands there
//     extract  the data of the rows, if the block passes that check
//     correct  a word's remainder gives its syndromes (module syndromes), from which the decoder finds the errors (module corrector; in a row with many of them their places
//              are found by columns: modules locators and root_columns); one word with no code word within eight bytes refuses the block
//
// Every input is answered: an entry returns Ok, or the refusal; a refusal leaves the output buffer as it was. Frames: a wrong length (PayloadLength or BlockLength), then
// BufferSize, then NoCodeWord or Uncorrectable. Single rows: RowLength, BufferSize, then NoCodeWord or Uncorrectable.
#![tactic(auto)]

ghost use Rattle.std.specs.Prelude.{◌≡◌};
ghost use Rattle.words.specs.Corrections.{refusal_number, correction_of};
ghost use Rattle.g709.specs.Answers.{row_encoded, row_checked, row_extracted, row_corrected, rows_encoded, rows_checked, rows_extracted, rows_corrected};

pub use words::Refusal;

mod block;
mod columns;
mod corrector;
mod division;
mod locators;
mod root_columns;
mod syndromes;

// Writes the frame of the payload; PayloadLength or BufferSize.
pub fn encode(payload: &[u8], out: &mut [u8]) -> Result<(), Refusal>
    ensures { (refusal_number result, out.new) ≡ rows_encoded payload.now out.old }
{
    block::encode(payload, 4, Refusal::PayloadLength, out)
}

// Accepts a frame; BlockLength or NoCodeWord.
pub fn check(block: &[u8]) -> Result<(), Refusal>
    ensures { refusal_number result ≡ rows_checked block.now }
{
    block::check(block, 4, Refusal::BlockLength)
}

// Writes the payload of a frame; BlockLength, BufferSize or NoCodeWord.
pub fn extract(block: &[u8], out: &mut [u8]) -> Result<(), Refusal>
    ensures { (refusal_number result, out.new) ≡ rows_extracted block.now out.old }
{
    block::extract(block, 4, Refusal::BlockLength, out)
}

// Writes the frame whose words are within eight bytes of those received, and counts the changed bytes; BlockLength, BufferSize or Uncorrectable.
pub fn correct(block: &[u8], out: &mut [u8]) -> Result<u16, Refusal>
    ensures { (correction_of result, out.new) ≡ rows_corrected block.now out.old }
{
    block::correct(block, 4, Refusal::BlockLength, out)
}

// Writes the row of the data; RowLength or BufferSize.
pub fn encode_row(payload: &[u8], out: &mut [u8]) -> Result<(), Refusal>
    ensures { (refusal_number result, out.new) ≡ row_encoded payload.now out.old }
{
    block::encode(payload, 1, Refusal::RowLength, out)
}

// Accepts a row; RowLength or NoCodeWord.
pub fn check_row(row: &[u8]) -> Result<(), Refusal>
    ensures { refusal_number result ≡ row_checked row.now }
{
    block::check(row, 1, Refusal::RowLength)
}

// Writes the data of a row; RowLength, BufferSize or NoCodeWord.
pub fn extract_row(row: &[u8], out: &mut [u8]) -> Result<(), Refusal>
    ensures { (refusal_number result, out.new) ≡ row_extracted row.now out.old }
{
    block::extract(row, 1, Refusal::RowLength, out)
}

// Writes the row whose words are within eight bytes of those received, and counts the changed bytes; RowLength, BufferSize or Uncorrectable.
pub fn correct_row(row: &[u8], out: &mut [u8]) -> Result<u16, Refusal>
    ensures { (correction_of result, out.new) ≡ row_corrected row.now out.old }
{
    block::correct(row, 1, Refusal::RowLength, out)
}
