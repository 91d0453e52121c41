// What the programs of tests/ and bench/ call and a terminal does not, exported for C and Rust: the entries on single words, the corrector with its report, those of
// G.709 frames and rows with their counts, the worst list of any counts, and chains of products in each field. An answer of more than
// one number comes packed into one, and a list in a buffer that is lent.
#![tactic(auto)]

ghost use Rattle.std.specs.Prelude.{◌≡◌, ◌+◌, ◌≤◌};
ghost use Rattle.fields.specs.Elements.{powers_a, exponents_a, powers_b, exponents_b, powers_c, exponents_c};
ghost use Rattle.words.specs.Answers.{outer_checked, outer_encoded, inner_checked, inner_encoded, outer_corrected, inner_corrected};
ghost use Rattle.words.specs.Corrections.{refusal_number, correction_of, refusal_of, changed_of};
ghost use Rattle.words.specs.InnerCorrections.{inner_correction_of, inner_refusal_of, data_changed_of, parity_changed_of};
ghost use Rattle.frames.specs.Answers.{frame_corrected};
ghost use Rattle.g709.specs.Answers.{rows_corrected, row_corrected};
ghost use Rattle.exports.specs.Chains.{chain};
ghost use Rattle.exports.specs.Lists.{listed_words};
ghost use Rattle.exports.specs.Packed.{packed, packed_word, packed_inner, packed_frame};

use decoding::symbols;
use fields::BinaryField;
use frames::{Frame, Report};
use words::{InnerChanges, Refusal};

// 0, or the refusal's number.
fn number(answer: Result<(), Refusal>) -> u8
    ensures { result ≡ refusal_number answer }
{
    match answer {
        Ok(()) => 0,
        Err(refusal) => refusal as u8,
    }
}

#[unsafe(no_mangle)]
pub extern "C" fn exports_check_outer(word: &[u16]) -> u8
    ensures { result ≡ outer_checked word.now }
{
    number(words::check_outer(word))
}

#[unsafe(no_mangle)]
pub extern "C" fn exports_encode_outer(data: &[u16], out: &mut [u16]) -> u8
    ensures { (result, out.new) ≡ outer_encoded «data».now out.old }
{
    number(words::encode_outer(data, out))
}

// 256 times the number of changes, or the refusal's number.
#[tactic(auto, unfolding(crate::specs::Packed::packed))]
fn packed_word(answer: Result<u16, Refusal>) -> u32
    ensures { let c = correction_of answer in result ≡ packed (refusal_of c) (changed_of c) }
{
    match answer {
        Ok(changed) => 256 * u32::from(changed),
        Err(refusal) => refusal as u32,
    }
}

#[unsafe(no_mangle)]
pub extern "C" fn exports_correct_outer(word: &[u16], out: &mut [u16]) -> u32
    ensures { (result, out.new) ≡ packed_word (outer_corrected word.now out.old) }
{
    packed_word(words::correct_outer(word, out))
}

#[unsafe(no_mangle)]
pub extern "C" fn exports_check_inner(word: &[u8]) -> u8
    ensures { result ≡ inner_checked word.now }
{
    number(words::check_inner(word))
}

#[unsafe(no_mangle)]
pub extern "C" fn exports_encode_inner(data: &[u8], out: &mut [u8]) -> u8
    ensures { (result, out.new) ≡ inner_encoded «data».now out.old }
{
    number(words::encode_inner(data, out))
}

// 256 times the number of changed data places and 65,536 times that of changed parity places, or the refusal's number.
#[tactic(auto, unfolding(crate::specs::Packed::packed))]
fn packed_inner(answer: Result<InnerChanges, Refusal>) -> u32
    requires { let c = inner_correction_of answer in data_changed_of c + parity_changed_of c ≤ 8 }
    ensures { let c = inner_correction_of answer in result ≡ packed (inner_refusal_of c) (packed (data_changed_of c) (parity_changed_of c)) }
{
    match answer {
        Ok(InnerChanges { data, parity }) => 256 * u32::from(data) + 65536 * u32::from(parity),
        Err(refused) => refused as u32,
    }
}

#[unsafe(no_mangle)]
pub extern "C" fn exports_correct_inner(word: &[u8], out: &mut [u8]) -> u32
    ensures { (result, out.new) ≡ packed_inner (inner_corrected word.now out.old) }
{
    packed_inner(words::correct_inner(word, out))
}

// 256 times the sum, plus the refusal's number; the counts of data places and those of parity places are written, each if there is place for exactly 64.
#[unsafe(no_mangle)]
pub extern "C" fn exports_correct_frame(
    block: &[u8],
    out: &mut [u8],
    data: &mut [u16],
    parity: &mut [u16],
) -> u64
    ensures { (result, out.new, «data».new, parity.new)
        ≡ packed_frame (frame_corrected block.now out.old) «data».old parity.old }
{
    let report = frames::correct_frame(block, out);
    symbols::copy(&report.data, data);
    symbols::copy(&report.parity, parity);
    256 * u64::from(report.sum) + u64::from(report.refusal)
}

#[unsafe(no_mangle)]
pub extern "C" fn exports_g709_correct(block: &[u8], out: &mut [u8]) -> u32
    ensures { (result, out.new) ≡ packed_word (rows_corrected block.now out.old) }
{
    packed_word(g709::correct(block, out))
}

#[unsafe(no_mangle)]
pub extern "C" fn exports_g709_correct_row(row: &[u8], out: &mut [u8]) -> u32
    ensures { (result, out.new) ≡ packed_word (row_corrected row.now out.old) }
{
    packed_word(g709::correct_row(row, out))
}

// The worst list of a report with these counts of data places and of parity places, of which there are 64 each, or they stand for zeros; written if there is
// place for exactly eight.
#[unsafe(no_mangle)]
pub extern "C" fn exports_worst_words(data: &[u16], parity: &[u16], list: &mut [u8])
    ensures { list.new ≡ listed_words «data».now parity.now list.old }
{
    let mut in_data = [0u16; Frame::INNER_WORDS];
    let mut in_parity = [0u16; Frame::INNER_WORDS];
    symbols::copy(data, &mut in_data);
    symbols::copy(parity, &mut in_parity);
    let words = logging::worst_words(Report {
        refusal: 0,
        data: in_data,
        parity: in_parity,
        sum: 0,
    });
    symbols::copy(&words, list);
}

// x times y, n times over: each product waits for the one before it.
fn products(field: BinaryField, x: u16, y: u16, n: u32) -> u16
    ensures { result ≡ chain field.entry.exp.now field.entry.log.now x y n }
{
    let mut v = x;
    for _ in 0..n {
        v = field.product(v, y);
    }
    v
}

#[unsafe(no_mangle)]
pub extern "C" fn exports_products_a(x: u16, y: u16, n: u32) -> u16
    ensures { result ≡ chain powers_a exponents_a x y n }
{
    products(fields::field_a(), x, y, n)
}

#[unsafe(no_mangle)]
pub extern "C" fn exports_products_b(x: u16, y: u16, n: u32) -> u16
    ensures { result ≡ chain powers_b exponents_b x y n }
{
    products(fields::field_b(), x, y, n)
}

#[unsafe(no_mangle)]
pub extern "C" fn exports_products_c(x: u16, y: u16, n: u32) -> u16
    ensures { result ≡ chain powers_c exponents_c x y n }
{
    products(fields::field_c(), x, y, n)
}
