// Inner words: the divisor that the eight factors make, the remainder of a word after division by it, and correction: the values of the remainder give the
// wrong places (module wrong_places), which are inverted. A binary polynomial is a number: bit i is the coefficient of z^i.
ghost use Rattle.std.specs.Prelude.{◌≡◌, ◌*◌, ◌/◌, ◌%◌, ◌+◌, ◌^◌, ◌≤◌, ◌<◌, length};
ghost use Rattle.fields.specs.Elements.{scale, doubled, powers_b};
ghost use Rattle.fields.specs.Places.{at};
ghost use Rattle.decoding.specs.Steps.Decoder.{with_errors};
ghost use Rattle.words.specs.Bits.{bit_at, bits_of, number_of, bit_of, bytes_of};
ghost use Rattle.words.specs.InnerCode.{value_of, factors, divisor, remainder};
ghost use Rattle.words.specs.Steps.Residues.{residue, residues};
ghost use Rattle.words.specs.Steps.InnerDecoding.{odd_syndromes, plus_term, flips, InnerErrors};

use crate::wrong_places::OddSyndromes;
use crate::{Inner, wrong_places};
use decoding::error_values::Errors;
use decoding::symbols;

// v where the bit is 1, and 0 where it is 0.
fn scaled(b: u16, v: u128) -> u128
    ensures { result ≡ scale b v }
{
    if b == 0 { 0 } else { v }
}

// The least polynomials of a, a^3, .. a^15 in field B, as 12-bit numbers.
const FACTORS: [u16; 8] = [2053, 2341, 2189, 2093, 3085, 3851, 2147, 2419];

fn factor(i: usize) -> u16
    requires { i < 8 }
    ensures { result ≡ at factors i }
{
    FACTORS[i]
}

// The polynomial f of degree below 12 times v.
fn times(f: u16, v: u128) -> u128
    requires { v < 2 ^ 88 }
    ensures { result ≡ value_of (λ u. 2 * u) v 12 f }
{
    let mut u = 0;
    for k in 0..12u16 {
        u = (2 * u) ^ scaled((f >> (11 - k)) % 2, v);
    }
    u
}

// The product of the eight factors, of degree 88.
fn divisor() -> u128
    ensures { result ≡ divisor }
{
    let mut d = 1;
    for i in 0..8 {
        d = times(factor(i), d);
    }
    d
}

// z times v, less d where a term z^88 comes up.
fn doubled(v: u128, d: u128) -> u128
    requires { v < 2 ^ 100 }
    ensures { result ≡ doubled 88 d v }
{
    let t = 2 * v;
    if (t >> Inner::PARITY) % 2 == 0 {
        t
    } else {
        t ^ d
    }
}

// A division takes so many places a step.
const STEP: usize = 4;

const STEP_VALUES: usize = 1 << STEP;

const STEP_MASK: u8 = (1 << STEP) - 1;

const STEPS: usize = Inner::PLACES / STEP;

// So many coefficients of a remainder stay below z^88 in a step.
const KEPT: usize = Inner::PARITY - STEP;

const REMAINDERS: u128 = 1 << Inner::PARITY;

// The remainder of k z^88 after division by the divisor d, where k is a polynomial of degree below 4.
fn residue(d: u128, k: usize) -> u128
    requires { (d ≡ divisor) × (k < 16) }
    ensures { result ≡ residue divisor k }
{
    let mut v = (k as u128) << KEPT;
    for _i in 0..STEP {
        v = doubled(v, d);
    }
    v
}

// The table of the division: entry k is the remainder of k z^88.
fn residues() -> [u128; STEP_VALUES]
    ensures { result ≡ residues divisor }
{
    let d = divisor();
    let mut t = [0; STEP_VALUES];
    for k in 0..STEP_VALUES {
        t[k] = residue(d, k);
    }
    t
}

// The coefficients of z^84 to z^87 of v, as a number: z^4 takes them to z^88 and above.
fn leading(v: u128) -> usize
    ensures { result ≡ v / 2 ^ 84 % 16 }
{
    ((v >> KEPT) % 16) as usize
}

// z^4 times v, without the terms from z^88 on, plus x.
fn shifted(v: u128, x: u8) -> u128
    requires { x < 16 }
    ensures { result ≡ 16 * v % 2 ^ 88 + x }
{
    (v << STEP) % REMAINDERS + u128::from(x)
}

// The four places from place 4 i on, half a byte, as a number; 0 past the end.
fn four_places(bytes: &[u8], i: usize) -> u8
    ensures { (result ≡ number_of 4 (λ j. bit_at bytes.now (4 * i + j))) × (result < 16) }
{
    if i / 2 < bytes.len() {
        return (bytes[i / 2] >> (STEP - STEP * (i % 2))) & STEP_MASK;
    }
    0
}

// The remainder of 2,040 places after division by the divisor; places past the end of the bytes are 0. It takes four places a step, and so a
// quarter of the steps: for the terms that come to z^88 and above, a step adds their remainder, which the table has.
pub(crate) fn remainder(bytes: &[u8]) -> u128
    ensures { result ≡ remainder 88 divisor (bit_at bytes.now) 2040 }
{
    let t = residues();
    let mut v = 0;
    for i in 0..STEPS {
        v = t[leading(v)] ^ shifted(v, four_places(bytes, i));
    }
    v
}

// Byte k of the eleven that the 88 coefficients of v make, the highest first.
fn byte(v: u128, k: usize) -> u8
    requires { k < 11 }
    ensures { result ≡ number_of 8 (λ j. bit_of 88 v (8 * k + j)) }
{
    let shift = Inner::PARITY - 8 * (k + 1);
    ((v >> shift) % 256) as u8
}

// Writes the 88 coefficients of v as eleven bytes.
pub(crate) fn store(v: u128, out: &mut [u8])
    requires { length out.old ≡ 11 }
    ensures { out.new ≡ bytes_of 11 (bit_of 88 v) }
{
    for k in 0..Inner::PARITY_BYTES {
        out[k] = byte(v, k);
    }
}

// Coefficient k of the 88 of v, the highest first.
fn coefficient(v: u128, k: usize) -> u16
    requires { k < 88 }
    ensures { (result ≡ bit_of 88 v k) × (result < 2) }
{
    ((v >> (Inner::PARITY - 1 - k)) % 2) as u16
}

// The values w with those of the term c z^i added. A product by the bit c, not a branch on it: coefficients cannot be predicted.
fn plus_term(w: OddSyndromes, c: u16, i: usize) -> OddSyndromes
    requires { (c < 2) × (i < 88) }
    ensures { result.at ≡ plus_term powers_b w.at c i }
{
    let field = fields::field_b();
    let mut at = [0; Inner::RADIUS];
    for j in 0..Inner::RADIUS {
        let x = field.power((2 * (j as u16) + 1) * (i as u16));
        at[j] = symbols::sum(w.at[j], c * x);
    }
    OddSyndromes { at }
}

// The values of v, of degree below 88: at a^e the sum of a^(e i) over its coefficients i that are 1.
fn odd_syndromes(v: u128) -> OddSyndromes
    ensures { result.at ≡ odd_syndromes powers_b v }
{
    let mut w = OddSyndromes {
        at: [0; Inner::RADIUS],
    };
    for i in 0..Inner::PARITY {
        w = plus_term(w, coefficient(v, Inner::PARITY - 1 - i), i);
    }
    w
}

// The errors in a word: the values of its remainder are those of the word.
pub(crate) fn errors(word: &[u8]) -> Errors
    ensures { InnerErrors word.now result.places.at result.values result.places.count result.left }
{
    wrong_places::errors_of(odd_syndromes(remainder(word)))
}

// Writes the word with the wrong places inverted.
pub(crate) fn correct(word: &[u8], e: Errors, out: &mut [u8])
    requires { (length out.old ≡ length word.now) × (e.places.count ≤ 8) }
    ensures { bits_of out.new ≡ with_errors (bit_at word.now) e.places.at (flips e.values) e.places.count (8 * length word.now) }
{
    symbols::copy(word, out);
    wrong_places::invert(e, 1, 0, out);
}
