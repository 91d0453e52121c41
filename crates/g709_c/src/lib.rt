// The entries for a host program in C, which lends each buffer as a pointer and a length; include/g709.h declares them. Each returns 0 or the number of the refusal.
#![tactic(auto)]

ghost use Rattle.std.specs.Prelude.{◌≡◌};
ghost use Rattle.words.specs.Corrections.{refusal_number};
ghost use Rattle.g709.specs.Answers.{row_encoded, row_checked, row_extracted, row_corrected, rows_encoded, rows_checked, rows_extracted, rows_corrected, without_changes};

use words::Refusal;

// 0, or the refusal's number.
fn number_of<T: Copy>(answer: Result<T, Refusal>) -> u8
    ensures { result ≡ refusal_number answer }
{
    match answer {
        Ok(_) => 0,
        Err(refusal) => u8::from(refusal),
    }
}

#[unsafe(no_mangle)]
pub extern "C" fn g709_encode(payload: &[u8], frame: &mut [u8]) -> u8
    ensures { (result, frame.new) ≡ rows_encoded payload.now frame.old }
{
    number_of(g709::encode(payload, frame))
}

#[unsafe(no_mangle)]
pub extern "C" fn g709_check(block: &[u8]) -> u8
    ensures { result ≡ rows_checked block.now }
{
    number_of(g709::check(block))
}

#[unsafe(no_mangle)]
pub extern "C" fn g709_extract(block: &[u8], payload: &mut [u8]) -> u8
    ensures { (result, payload.new) ≡ rows_extracted block.now payload.old }
{
    number_of(g709::extract(block, payload))
}

// The number of changed bytes is not handed out.
#[unsafe(no_mangle)]
pub extern "C" fn g709_correct(block: &[u8], frame: &mut [u8]) -> u8
    ensures { (result, frame.new) ≡ without_changes (rows_corrected block.now frame.old) }
{
    number_of(g709::correct(block, frame))
}

#[unsafe(no_mangle)]
pub extern "C" fn g709_encode_row(payload: &[u8], row: &mut [u8]) -> u8
    ensures { (result, row.new) ≡ row_encoded payload.now row.old }
{
    number_of(g709::encode_row(payload, row))
}

#[unsafe(no_mangle)]
pub extern "C" fn g709_check_row(row: &[u8]) -> u8
    ensures { result ≡ row_checked row.now }
{
    number_of(g709::check_row(row))
}

#[unsafe(no_mangle)]
pub extern "C" fn g709_extract_row(row: &[u8], payload: &mut [u8]) -> u8
    ensures { (result, payload.new) ≡ row_extracted row.now payload.old }
{
    number_of(g709::extract_row(row, payload))
}

#[unsafe(no_mangle)]
pub extern "C" fn g709_correct_row(received: &[u8], row: &mut [u8]) -> u8
    ensures { (result, row.new) ≡ without_changes (row_corrected received.now row.old) }
{
    number_of(g709::correct_row(received, row))
}
