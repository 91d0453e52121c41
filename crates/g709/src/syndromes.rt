// The syndromes of the sixteen words of a row: the values of their remainders at the sixteen roots, a column of sixteen bytes at a step. Value j of word k is byte 16 j + k,
// as the remainders stand.
ghost use Rattle.std.specs.Prelude.{◌≡◌, ◌<◌};
ghost use Rattle.fields.specs.Places.{at};
ghost use Rattle.g709.specs.Steps.ColumnSyndromes.{value_stored, values_stored, SyndromesTo};

use crate::columns::{CELLS, WORDS, product};

// The roots: a^0 to a^15.
const ROOTS: [u8; 16] = [
    1, 2, 4, 8, 16, 32, 64, 128, 29, 58, 116, 232, 205, 135, 19, 38,
];

// Value j, of which the first i columns are done, is multiplied by root j, and column i is added.
fn next_value(s: &mut [u8; CELLS], rest: &[u8; CELLS], i: usize, j: usize)
    requires { (i < 16) × (j < 16) }
    ensures { s.new ≡ value_stored s.old rest.now i j (at ROOTS j) }
{
    let m = WORDS * i;
    let n = WORDS * j;
    let y = ROOTS[j];
    for l in 0..WORDS {
        s[n + l] = product(s[n + l], y) ^ rest[m + l];
    }
}

// One column more, written out as a step of the division is.
fn next_values(s: &mut [u8; CELLS], rest: &[u8; CELLS], i: usize)
    requires { i < 16 }
    ensures { s.new ≡ values_stored s.old rest.now i 16 }
{
    next_value(s, rest, i, 0);
    next_value(s, rest, i, 1);
    next_value(s, rest, i, 2);
    next_value(s, rest, i, 3);
    next_value(s, rest, i, 4);
    next_value(s, rest, i, 5);
    next_value(s, rest, i, 6);
    next_value(s, rest, i, 7);
    next_value(s, rest, i, 8);
    next_value(s, rest, i, 9);
    next_value(s, rest, i, 10);
    next_value(s, rest, i, 11);
    next_value(s, rest, i, 12);
    next_value(s, rest, i, 13);
    next_value(s, rest, i, 14);
    next_value(s, rest, i, 15);
}

// The syndromes of the words with these remainders. Remainders of zeros, as a row without wrong bytes has them, have syndromes of zeros.
pub(crate) fn syndromes(rest: &[u8; CELLS]) -> [u8; CELLS]
    ensures { SyndromesTo rest.now 16 result }
{
    let mut s = [0; CELLS];
    if *rest == s {
        return s;
    }
    for i in 0..WORDS {
        next_values(&mut s, rest, i);
    }
    s
}
