// Values of sixteen polynomials at all powers of a, a column of sixteen bytes at a step, as the division of a row goes. From one power to the next the coefficient of x^d
// is multiplied by a^d; the sum of the nine columns is the column of values.
ghost use Rattle.std.specs.Prelude.{◌≡◌, ◌+◌, ◌*◌, ◌<◌};
ghost use Rattle.fields.specs.Places.{at};
ghost use Rattle.g709.specs.Steps.Registers.{over};
ghost use Rattle.g709.specs.Steps.RootColumns.{column_values};
ghost use Rattle.g709.specs.Steps.Evaluating.{column_scaled, columns_scaled, column_sum};

use crate::columns::{WORDS, product};

// Nine coefficients of sixteen polynomials, highest power first.
pub(crate) const TERMS: usize = 9 * WORDS;

// Their values at the 255 powers of a.
pub(crate) const VALUES: usize = 255 * WORDS;

// a^8, a^7, .. a: what the coefficients but the last are multiplied by.
const POWERS: [u8; 8] = [29, 128, 64, 32, 16, 8, 4, 2];

// Multiplies column d by its power.
fn scale(terms: &mut [u8; TERMS], d: usize)
    requires { d < 8 }
    ensures { terms.new ≡ column_scaled terms.old d (at POWERS d) }
{
    let n = WORDS * d;
    let y = POWERS[d];
    for j in 0..WORDS {
        terms[n + j] = product(terms[n + j], y);
    }
}

// To the next power, written out as a step of the division is. The last column stays as it is.
fn advance(terms: &mut [u8; TERMS])
    ensures { terms.new ≡ columns_scaled terms.old 8 }
{
    scale(terms, 0);
    scale(terms, 1);
    scale(terms, 2);
    scale(terms, 3);
    scale(terms, 4);
    scale(terms, 5);
    scale(terms, 6);
    scale(terms, 7);
}

fn sum(terms: &[u8; TERMS], j: usize) -> u8
    requires { j < 16 }
    ensures { result ≡ column_sum terms.now j }
{
    let mut sum = 0;
    for d in 0..9 {
        sum ^= terms[j + WORDS * d];
    }
    sum
}

// Stores the values at a^e.
fn add_up(terms: &[u8; TERMS], values: &mut [u8; VALUES], e: usize)
    requires { e < 255 }
    ensures { values.new ≡ over values.old (16 * e) 16 (column_sum terms.now) }
{
    let n = WORDS * e;
    for j in 0..WORDS {
        values[n + j] = sum(terms, j);
    }
}

// Stores the values of the sixteen polynomials at all powers of a. The coefficients are used up.
pub(crate) fn evaluate(terms: &mut [u8; TERMS], values: &mut [u8; VALUES])
    ensures { values.new ≡ column_values terms.old }
{
    for e in 0..255 {
        add_up(terms, values, e);
        advance(terms);
    }
}
