// Correction of the words of a block, in a copy of it. A word's values at the roots are those of its remainder; they are the syndromes from which the decoder finds the
// errors. None: a word has no code word within eight bytes.
ghost use Rattle.std.specs.Prelude.{◌≡◌, true, ◌+◌, ◌*◌, ◌≤◌, ◌<◌, IfSome, is_some, List, ℕ, length};
ghost use Rattle.fields.specs.Elements.{powers_c, exponents_c};
ghost use Rattle.decoding.specs.Steps.Decoder.{Decoded, with_error};
ghost use Rattle.g709.specs.Rows.{received_bytes};
ghost use Rattle.g709.specs.Steps.ColumnSyndromes.{RowSyndromes};
ghost use Rattle.g709.specs.Steps.Locating.{LocatorValues};
ghost use Rattle.g709.specs.Steps.Restoring.{lane_of, ByteValues, values_added, WordErrors, word_corrected, answer_of, count_found, alone, Remains, WordDone, Restoring};

use crate::columns::{CELLS, WORDS};
use crate::division::ROW;
use crate::root_columns::VALUES;
use crate::{columns, division, locators, syndromes};
use decoding::error_values::Errors;
use decoding::{SYNDROMES, error_values, symbols};

// Bytes of a word.
const BYTES: usize = 255;

// Adds v to the byte at place i; a place past the end changes nothing.
fn add(out: &mut [u8], i: usize, v: u16)
    requires { v < 256 }
    ensures { out.new ≡ with_error out.old i v }
{
    if i < out.len() {
        out[i] ^= v as u8;
    }
}

// Where a place of a word stands whose first byte is at `from`.
fn standing(from: usize, place: u16) -> usize
    requires { from < 16320 }
    ensures { result ≡ from + 16 * place }
{
    from + WORDS * usize::from(place)
}

// Adds the errors' values to the bytes of the word whose first byte stands at `from`.
fn add_values(e: Errors, from: usize, out: &mut [u8])
    requires from_bound { (from < 16320) × (e.places.count ≤ 8) }
    requires byte_values { ByteValues e.values e.places.count }
    ensures { out.new ≡ values_added out.old from e.places.at e.values e.places.count }
{
    let places = e.places;
    for k in 0..places.count {
        add(out, standing(from, places.at[k]), e.values[k]);
    }
}

// Corrects word k of row r in the block, e being the errors found in it.
fn correct_word(e: Errors, r: usize, k: usize, out: &mut [u8]) -> Option<u16>
    requires r_bound { (r < 4) × (k < 16) × (4080 * r + 4080 ≤ length out.old) }
    requires word_errors { WordErrors (received_bytes out.old (16 * r + k)) e }
    ensures { ((answer_of result, out.new) ≡ word_corrected out.old (16 * r + k)) × (count_found result ≤ 8) }
{
    let left = e.left;
    if !symbols::all_below(&left, 1) {
        return None;
    }
    add_values(e, ROW * r + k, out);
    Some(decoding::weight(e, 0, BYTES))
}

// The errors in word k of a row, t being its syndromes: by the values of the row's locator polynomials where these were made, else by itself.
fn errors(values: Option<&[u8; VALUES]>, t: [u16; SYNDROMES], k: usize) -> Errors
    requires k_bound { k < 16 }
    requires located { IfSome values (λ v. (s : List ℕ) × LocatorValues s v.now × (t ≡ lane_of s k)) }
    ensures { Decoded powers_c exponents_c t 255 result.places.at result.values result.places.count result.left }
{
    let field = fields::field_c();
    match values {
        Some(values) => { error_values::valued(field, BYTES, t, locators::places(values, k)) }
        None => decoding::decode(field, t, BYTES),
    }
}

// Corrects word k of row r, whose syndromes are those of word k in `s`, and counts the changed bytes.
fn next_word(
    s: &[u8; CELLS],
    values: Option<&[u8; VALUES]>,
    r: usize,
    k: usize,
    out: &mut [u8],
) -> Option<u16>
    requires r_bound { (r < 4) × (k < 16) × (4080 * r + 4080 ≤ length out.old) }
    requires remains { Remains true (lane_of s.now k) (received_bytes out.old (16 * r + k)) }
    requires values_for { IfSome values (λ v. LocatorValues s.now v.now) }
    ensures word_done { WordDone out.old (16 * r + k) true 0 out.new (is_some result) (count_found result) }
    ensures few { count_found result ≤ 8 }
{
    let t = columns::lane(s, k);
    if symbols::all_below(&t, 1) {
        return Some(0);
    }
    correct_word(errors(values, t, k), r, k, out)
}

// Corrects the words of row r from one on and before another, whose syndromes are those in `s`, and adds the changed bytes to the count.
fn next_words(
    block: &[u8],
    s: &[u8; CELLS],
    values: Option<&[u8; VALUES]>,
    r: usize,
    from: usize,
    to: usize,
    out: &mut [u8],
    before: u16,
) -> Option<u16>
    requires r_bound { (r < 4) × (from ≤ to) × (to ≤ 16) × (4080 * r + 4080 ≤ length block.now) }
    requires row_syndromes { RowSyndromes block.now r s.now }
    requires values_for { IfSome values (λ v. LocatorValues s.now v.now) }
    requires restoring { Restoring block.now (16 * r + from) out.old true before }
    ensures { Restoring block.now (16 * r + to) out.new (is_some result) (count_found result) }
{
    let mut changed = before;
    for k in from..to {
        changed += next_word(s, values, r, k, out)?;
    }
    Some(changed)
}

// How many words of row r go by themselves before the others: the first of the block, so that noise is refused at once.
fn alone(r: usize) -> usize
    ensures { (result ≡ alone r) × (result ≤ 1) }
{
    if r == 0 { 1 } else { 0 }
}

// Corrects the words of row r in the copy of the block, and adds the changed bytes to the count.
fn correct_row(block: &[u8], r: usize, out: &mut [u8], before: u16) -> Option<u16>
    requires r_bound { (r < 4) × (4080 * r + 4080 ≤ length block.now) }
    requires restoring { Restoring block.now (16 * r) out.old true before }
    ensures { Restoring block.now (16 * r + 16) out.new (is_some result) (count_found result) }
{
    let mut space = [0; VALUES];
    let rest = division::remainders(block[ROW * r..ROW * (r + 1)].try_into().unwrap());
    let s = syndromes::syndromes(&rest);
    let first = alone(r);
    let changed = next_words(block, &s, None, r, 0, first, out, before)?;
    let values = locators::locate(&s, &mut space);
    next_words(block, &s, values, r, first, WORDS, out, changed)
}

// Corrects the words of n rows in the copy of the block, and counts the changed bytes.
pub(crate) fn restore(block: &[u8], n: usize, out: &mut [u8]) -> Option<u16>
    requires n_bound { (n ≤ 4) × (length block.now ≡ 4080 * n) }
    requires restoring { Restoring block.now 0 out.old true 0 }
    ensures { Restoring block.now (16 * n) out.new (is_some result) (count_found result) }
{
    let mut changed = 0;
    for r in 0..n {
        changed = correct_row(block, r, out, changed)?;
    }
    Some(changed)
}
