// The wrong places of an inner word, from its values at a, a^3, .. a^15: the errors that explain these, and the places inverted where the word stands, alone or
// among others. For the crates above too.
ghost use Rattle.std.specs.Prelude.{◌≡◌, cond, ℕ, ◌+◌, ◌*◌, ◌≤◌, ◌<◌, length, eqb};
ghost use Rattle.fields.specs.Elements.{xor, powers_b, exponents_b};
ghost use Rattle.fields.specs.Places.{differs};
ghost use Rattle.decoding.specs.Steps.PowerTables.{PowerTables};
ghost use Rattle.words.specs.Bits.{bit_at};
ghost use Rattle.words.specs.Steps.InnerDecoding.{Syndromes, is_bit, is_binary, ErrorsOf, inverted, explains};

use crate::Inner;
use decoding::error_values::Errors;
use decoding::symbols;
use fields::BinaryField;

// The values of a polynomial, or of a word, at a, a^3, .. a^15.
#[derive(Clone, Copy)]
pub struct OddSyndromes {
    pub at: [u16; Inner::RADIUS],
}

// The values of a word at a, a^2, .. a^16, from those at the odd powers: at the even powers they are squares.
fn syndromes(odd: OddSyndromes) -> [u16; decoding::SYNDROMES]
    ensures { Syndromes powers_b exponents_b odd.at 8 result }
{
    let field = fields::field_b();
    let mut t = [0; decoding::SYNDROMES];
    for i in 0..Inner::RADIUS {
        t[2 * i] = odd.at[i];
        t[2 * i + 1] = field.product(t[i], t[i]);
    }
    t
}

// The value of an error in a place, where a wrong place is one with the value 1: its locator, or 0 for none.
fn is_bit(value: u16, x: u16) -> bool
    ensures { result ≡ is_bit value x }
{
    value == 0 || value == x
}

// Each error's value is that of a wrong place.
fn is_binary(field: BinaryField, e: Errors) -> bool
    ensures { result ≡ is_binary field.entry.exp.now e.places.at e.values e.places.count }
{
    let places = e.places;
    let at = places.at;
    let values = e.values;
    for k in 0..places.count {
        let x = decoding::locator(field, Inner::PLACES, usize::from(symbols::symbol(&at, k)));
        if !is_bit(symbols::symbol(&values, k), x) {
            return false;
        }
    }
    true
}

// The errors in a word that has these values, which is a code word with at most eight places wrong only if they explain it.
pub(crate) fn errors_of(odd: OddSyndromes) -> Errors
    ensures { ErrorsOf odd.at result.places.at result.values result.places.count result.left }
{
    decoding::decode_bits(fields::field_b(), syndromes(odd), Inner::PLACES)
}

// The errors in an inner word, from its odd syndromes, by tables of powers, which the caller lends from word to word.
pub fn errors_by_tables(tables: &mut [u16], odd: OddSyndromes) -> Errors
    requires { PowerTables powers_b tables.old }
    ensures errors { ErrorsOf odd.at result.places.at result.values result.places.count result.left }
    ensures tables { PowerTables powers_b tables.new }
{
    decoding::decode_bits_by_tables(fields::field_b(), tables, syndromes(odd), Inner::PLACES)
}

// The errors leave nothing of the syndromes, and each has the value of a wrong place.
pub fn explains(field: BinaryField, e: Errors) -> bool
    ensures { result ≡ explains field.entry.exp.now e.places.at e.values e.places.count e.left }
{
    let left = e.left;
    symbols::all_below(&left, 1) && is_binary(field, e)
}

// Inverts place i, if the value is not zero; a place past the end changes nothing.
pub fn flip(out: &mut [u8], i: usize, value: u16)
    ensures { (l : ℕ) → l < 8 * length out.old → bit_at out.new l ≡ xor (bit_at out.old l) (cond (eqb i l) (differs value 0) 0) }
{
    if value == 0 {
        return;
    }
    if i / 8 < out.len() {
        out[i / 8] ^= 128 >> (i % 8);
    }
}

// The bit at which place i of a word stands.
fn bit_place(step: usize, i: u16, first: usize) -> usize
    requires { (step ≤ 64) × (first < 64) }
    ensures { result ≡ step * i + first }
{
    step * usize::from(i) + first
}

// Inverts the wrong places in bytes in which place i of the word stands at bit `step * i + first`.
pub fn invert(e: Errors, step: usize, first: usize, out: &mut [u8])
    requires { (e.places.count ≤ 8) × (step ≤ 64) × (first < 64) }
    ensures { (l : ℕ) → l < 8 * length out.old → bit_at out.new l ≡ xor (bit_at out.old l) (inverted step first e.places.at e.values e.places.count l) }
{
    let places = e.places;
    for k in 0..places.count {
        flip(out, bit_place(step, places.at[k], first), e.values[k]);
    }
}
