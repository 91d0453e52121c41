// The code word near an outer word: the errors that the decoder finds from the values of the word's remainder at the roots, added to the word.
// `correct_from` is for the crates above too.
ghost use Rattle.std.specs.Prelude.{◌≡◌, true, ◌≤◌, length};
ghost use Rattle.fields.specs.Places.{at, all_below};
ghost use Rattle.decoding.specs.Steps.Decoder.{with_error, with_errors};
ghost use Rattle.words.specs.Answers.{correction_of, outer_corrected};
ghost use Rattle.words.specs.Steps.Division.{outer_remainder};
ghost use Rattle.words.specs.Steps.SixSymbols.{Packs};

use crate::packed::Packed;
use crate::{Refusal, packed};
use decoding::error_values::Errors;
use decoding::symbols;

// Adds v to the symbol at place i; a place past the end changes nothing.
fn add(out: &mut [u16], i: usize, v: u16)
    ensures { out.new ≡ with_error out.old i v }
{
    if i < out.len() {
        out[i] = symbols::sum(out[i], v);
    }
}

// Writes the word with the errors' values added.
fn correct(word: &[u16], e: Errors, out: &mut [u16])
    requires { (length out.old ≡ length word.now) × (e.places.count ≤ 8) }
    ensures { out.new ≡ with_errors (at word.now) e.places.at e.values e.places.count (length word.now) }
{
    symbols::copy(word, out);
    let places = e.places;
    for k in 0..places.count {
        add(out, usize::from(places.at[k]), e.values[k]);
    }
}

// Writes the code word within eight symbols of a word that no entry refuses, whose remainder is `rest`; 5.
pub fn correct_from(rest: Packed, word: &[u16], out: &mut [u16]) -> Result<u16, Refusal>
    requires in_bounds { (17 ≤ length word.now) × (length word.now ≤ 1023) × (all_below 1024 word.now ≡ true) × (length out.old ≡ length word.now) }
    requires packs { Packs rest.high rest.middle rest.low (outer_remainder word.now) }
    ensures { (correction_of result, out.new) ≡ outer_corrected word.now out.old }
{
    let t = packed::root_values(rest);
    let e = decoding::decode(fields::field_a(), t, word.len());
    let left = e.left;
    if !symbols::all_below(&left, 1) {
        return Err(Refusal::Uncorrectable);
    }
    correct(word, e, out);
    Ok(decoding::weight(e, 0, word.len()))
}
