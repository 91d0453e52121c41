// The value of the error at each place that was found, the last first: the locators before it are filtered out of the syndromes, which leaves a multiple of the
// value; then the error's own syndromes are taken away. In a word of bits the values are known, and tried first. What leads to a value is always inlined: the caller
// knows the field, and so the lengths of its tables.
ghost use Rattle.std.specs.Prelude.{◌≡◌, ℕ, ◌≤◌, ◌<◌, length};
ghost use Rattle.fields.specs.Elements.{xor};
ghost use Rattle.fields.specs.Steps.ByTables.{table_product};
ghost use Rattle.fields.specs.Places.{at};
ghost use Rattle.decoding.specs.Steps.Decoder.{Tables, Decoded};
ghost use Rattle.decoding.specs.Steps.ErrorValues.{filtered, error_value, less_error, resolved, Located, less_powers, flipped, flipped_to};

use crate::exponents::plus;
use crate::root_search::Places;
use crate::{RADIUS, SYNDROMES, locator, symbols};
use fields::BinaryField;

// The powers of x are filtered out of the sequence t.
#[inline(always)]
fn filtered(field: BinaryField, x: u16, t: [u16; SYNDROMES]) -> [u16; SYNDROMES]
    ensures { result ≡ filtered field.entry.exp.now field.entry.log.now x t }
{
    let mut s = [0u16; SYNDROMES];
    for j in 0..SYNDROMES {
        s[j] = symbols::sum(symbols::symbol(&t, j + 1), field.product(x, t[j]));
    }
    s
}

// A sequence from which the powers of some locators are filtered out, and the factor by which that multiplied the powers of another.
#[derive(Clone, Copy)]
struct Filter {
    sequence: [u16; SYNDROMES],
    factor: u16,
}

// The powers of y are filtered out too; x is the other locator.
#[inline(always)]
fn extended(field: BinaryField, f: Filter, x: u16, y: u16) -> Filter
    ensures { (result.sequence ≡ filtered field.entry.exp.now field.entry.log.now y f.sequence) × (result.factor ≡ table_product field.entry.exp.now field.entry.log.now f.factor (xor x y)) }
{
    let sequence = filtered(field, y, f.sequence);
    Filter {
        sequence,
        factor: field.product(f.factor, symbols::sum(x, y)),
    }
}

// The value of the error at place k of those listed, where t are the syndromes of the errors at the places up to k.
#[inline(always)]
fn error_value(field: BinaryField, n: usize, places: Places, t: [u16; SYNDROMES], k: usize) -> u16
    requires { (n < 65536) × (k < 8) }
    ensures { result ≡ error_value field.entry.exp.now field.entry.log.now n places.at t k }
{
    let x = locator(field, n, usize::from(places.at[k]));
    let mut f = Filter {
        sequence: t,
        factor: 1,
    };
    for i in 0..k {
        f = extended(field, f, x, locator(field, n, usize::from(places.at[i])));
    }
    field.product(f.sequence[0], field.inverse(f.factor))
}

// The syndromes t, with those of the error v at the locator x taken away.
#[inline(always)]
fn less_error(field: BinaryField, x: u16, v: u16, t: [u16; SYNDROMES]) -> [u16; SYNDROMES]
    ensures { result ≡ less_error field.entry.exp.now field.entry.log.now x v t }
{
    let mut s = [0u16; SYNDROMES];
    let mut c = v;
    for j in 0..SYNDROMES {
        s[j] = symbols::sum(t[j], c);
        c = field.product(x, c);
    }
    s
}

// The errors found: their places, and the values to be added there. `left` is what they leave of the word's syndromes: all zero, if the word with the
// values added is a code word.
#[derive(Clone, Copy)]
pub struct Errors {
    pub places: Places,
    pub values: [u16; RADIUS],
    pub left: [u16; SYNDROMES],
}

// The error at place k of those listed is found and taken away.
#[inline(always)]
fn resolved(field: BinaryField, n: usize, e: Errors, k: usize) -> Errors
    requires { (n < 65536) × (k < 8) }
    ensures { result ≡ resolved field.entry.exp.now field.entry.log.now n k e }
{
    let places = e.places;
    let t = e.left;
    let v = error_value(field, n, places, t, k);
    let left = less_error(field, locator(field, n, usize::from(places.at[k])), v, t);
    let mut values = e.values;
    values[k] = v;
    Errors {
        places,
        values,
        left,
    }
}

// The errors at the places found, in a word of n places that has the syndromes t.
#[inline(always)]
pub fn valued(field: BinaryField, n: usize, t: [u16; SYNDROMES], places: Places) -> Errors
    requires tables { Tables field.exp.now field.log.now }
    requires n_in_bounds { (n ≤ length field.exp.now) × (n < 65536) }
    requires located { Located field.exp.now field.log.now t n places.at places.count }
    ensures { Decoded field.entry.exp.now field.entry.log.now t n result.places.at result.values result.places.count result.left }
{
    let mut e = Errors {
        places,
        values: [0u16; RADIUS],
        left: t,
    };
    for k in (0..places.count).rev() {
        e = resolved(field, n, e, k);
    }
    e
}

// The syndromes t, with those of the error a^e at the locator a^e taken away.
fn less_powers(field: BinaryField, e: usize, t: [u16; SYNDROMES]) -> [u16; SYNDROMES]
    requires { (e < length field.exp.now) × (length field.exp.now ≤ 65536) }
    ensures { result ≡ less_powers field.entry.exp.now e t }
{
    let mut s = [0u16; SYNDROMES];
    let mut k = e;
    for j in 0..SYNDROMES {
        s[j] = symbols::sum(t[j], field.exp[k]);
        k = plus(field.exp.len(), k, e);
    }
    s
}

// The error at place k of those listed is taken for one of value 1, in a word of bits whose syndromes start at a: it counts as its locator.
fn flipped(field: BinaryField, n: usize, e: Errors, k: usize) -> Errors
    requires n_in_bounds { (n ≤ length field.exp.now) × (length field.exp.now ≤ 65536) }
    requires k_bound { (k < 8) × (at e.places.at k < n) }
    ensures { result ≡ flipped field.entry.exp.now n k e }
{
    let places = e.places;
    let t = e.left;
    let x = n - 1 - usize::from(places.at[k]);
    let left = less_powers(field, x, t);
    let mut values = e.values;
    values[k] = field.exp[x];
    Errors {
        places,
        values,
        left,
    }
}

// The error at each place listed is taken for one of value 1.
fn all_flipped(field: BinaryField, n: usize, t: [u16; SYNDROMES], places: Places) -> Errors
    requires n_in_bounds { (n ≤ length field.exp.now) × (length field.exp.now ≤ 65536) }
    requires count_bound { (places.count ≤ 8) × ((k : ℕ) → k < places.count → at places.at k < n) }
    ensures { result ≡ flipped_to field.entry.exp.now n t places places.count }
{
    let mut e = Errors {
        places,
        values: [0u16; RADIUS],
        left: t,
    };
    for k in 0..places.count {
        e = flipped(field, n, e, k);
    }
    e
}

// The errors at the places found, as `valued` gives them; quick where they have the value 1 each: if these leave nothing, there are no others.
pub(crate) fn bits_valued(
    field: BinaryField,
    n: usize,
    t: [u16; SYNDROMES],
    places: Places,
) -> Errors
    requires tables { Tables field.exp.now field.log.now }
    requires n_in_bounds { (n ≤ length field.exp.now) × (n < 65536) × (length field.exp.now ≤ 65536) }
    requires located { Located field.exp.now field.log.now t n places.at places.count }
    ensures { Decoded field.entry.exp.now field.entry.log.now t n result.places.at result.values result.places.count result.left }
{
    let e = all_flipped(field, n, t, places);
    if symbols::all_below(&e.left, 1) {
        return e;
    }
    valued(field, n, t, places)
}
