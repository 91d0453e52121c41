// Bounded-distance decoding over any binary field, one text for all codes: the code's field is one value, its word is known by sixteen syndromes.
//
//     annihilator    a polynomial of degree at most 8 that annihilates the syndromes: the locators of up to eight errors are its roots
//     root_search    the places of the word whose locators are roots, from place to place; or
//     power_tables   by tables of powers, which a caller with many words to decode lends
//     error_values   the value of the error at each of these places, and what the errors leave of the syndromes
//
// The test is the caller's: if nothing is left of the syndromes, the word less these errors is a code word, near enough; else there is none. Any polynomial that
// annihilates will do: the values tell which of its roots are errors. The modules `symbols` and `exponents` have what these steps do with single symbols. The laws behind
// it, power sums, locators and the minimum distance, are in proofs/Algebra; those of the decoder in proofs/Decoding.
#![tactic(auto)]

ghost use Rattle.std.specs.Prelude.{◌≡◌, ◌%◌, ◌≤◌, ◌<◌, length};
ghost use Rattle.fields.specs.Elements.{powers_b};
ghost use Rattle.decoding.specs.Steps.Decoder.{Tables, locator, Decoded, change_between, weight_between};
ghost use Rattle.decoding.specs.Steps.ErrorValues.{Located};
ghost use Rattle.decoding.specs.Steps.PowerTables.{PowerTables};

use crate::error_values::Errors;
use crate::root_search::Places;
use fields::BinaryField;

pub mod annihilator;
pub mod error_values;
mod exponents;
pub mod power_tables;
pub mod root_search;
pub mod symbols;

// Errors in up to so many places are found.
pub const RADIUS: usize = 8;

pub const SYNDROMES: usize = 2 * RADIUS;

pub const COEFFICIENTS: usize = RADIUS + 1;

// The locator of place i of a word of n places.
pub fn locator(field: BinaryField, n: usize, i: usize) -> u16
    requires { n < 65536 }
    ensures { result ≡ locator field.entry.exp.now n i }
{
    field.power(n.saturating_sub(i).saturating_sub(1) as u16)
}

// The places, of a word of n, whose locators are roots of a polynomial that annihilates the syndromes t.
fn located(field: BinaryField, t: [u16; SYNDROMES], n: usize) -> Places
    requires tables { Tables field.exp.now field.log.now }
    requires n_in_bounds { (n ≤ length field.exp.now) × (n < 65536) }
    ensures { Located field.entry.exp.now field.entry.log.now t n result.at result.count }
{
    root_search::roots(field, annihilator::annihilator(field, t), n)
}

// The errors in a word of n places that has the syndromes t.
pub fn decode(field: BinaryField, t: [u16; SYNDROMES], n: usize) -> Errors
    requires tables { Tables field.exp.now field.log.now }
    requires n_in_bounds { (n ≤ length field.exp.now) × (n < 65536) }
    ensures { Decoded field.entry.exp.now field.entry.log.now t n result.places.at result.values result.places.count result.left }
{
    error_values::valued(field, n, t, located(field, t, n))
}

// The errors in a word of n bits that has the syndromes t, from a on: quick where at most eight bits are wrong.
pub fn decode_bits(field: BinaryField, t: [u16; SYNDROMES], n: usize) -> Errors
    requires tables { Tables field.exp.now field.log.now }
    requires n_in_bounds { (n ≤ length field.exp.now) × (n < 65536) × (length field.exp.now ≤ 65536) }
    ensures { Decoded field.entry.exp.now field.entry.log.now t n result.places.at result.values result.places.count result.left }
{
    error_values::bits_valued(field, n, t, located(field, t, n))
}

// The errors in a word of n bits that has the syndromes t, by tables of powers, which the caller lends from word to word.
pub fn decode_bits_by_tables(
    field: BinaryField,
    tables: &mut [u16],
    t: [u16; SYNDROMES],
    n: usize,
) -> Errors
    requires tables { Tables field.exp.now field.log.now }
    requires n_in_bounds { (n ≤ length field.exp.now) × (n < 65536) × (n % 40 ≡ 0) × (length field.exp.now ≡ 2047) }
    requires exp_value { (field.exp.now ≡ powers_b) × PowerTables field.exp.now tables.old }
    ensures decoded { Decoded field.entry.exp.now field.entry.log.now t n result.places.at result.values result.places.count result.left }
    ensures power_tables { PowerTables field.entry.exp.now tables.new }
{
    let polynomial = annihilator::annihilator(field, t);
    let places = power_tables::roots_by_tables(field, tables, polynomial, n);
    error_values::bits_valued(field, n, t, places)
}

// 1 for an error that is not zero at a place from `from` on and before `to`.
fn changes(place: usize, value: u16, from: usize, to: usize) -> u16
    ensures { (result ≡ change_between from to place value) × (result ≤ 1) }
{
    if from <= place && place < to && value != 0 {
        1
    } else {
        0
    }
}

// How many of the errors at places from `from` on and before `to` are not zero: the number of places there that they change.
pub fn weight(e: Errors, from: usize, to: usize) -> u16
    requires { e.places.count ≤ 8 }
    ensures { result ≡ weight_between from to e.places.at e.values e.places.count }
{
    let places = e.places;
    let mut n: u16 = 0;
    for k in 0..places.count {
        n += changes(usize::from(places.at[k]), e.values[k], from, to);
    }
    n
}
