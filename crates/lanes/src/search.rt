// Chien search: the locator polynomials of all inner words at one place after the other, in blocks of eleven places; the inner words whose polynomial is zero
// at a place are wrong there.
//
// An element x is given here by the coefficients of z^10 in x, a x, .. a^10 x, which are all zero just if x is. Those of a^n x are eleven numbers of a
// sequence, from number n on, and each number of it is the sum of those nine and eleven before: z^11 is z^2 + 1. So from one place to the next the term of
// degree i moves by i in its sequence, and nothing is multiplied. The terms of degree 1, 2, 4 and 8 are additive: their sum at a place is the sum of their
// sums nine and eleven places before. With the constant term it is the place's value. Only the terms of degree 3, 5, 6 and 7 have their sequences.
ghost use Rattle.std.specs.Prelude.{◌+◌, ◌≤◌, ◌<◌};

use crate::locators::Polynomial;
use crate::{DEGREE, FIRST_PLACES, Lanes, WORD_BLOCKS};

// The places of an inner word.
pub(crate) const PLACES: usize = FIRST_PLACES + DEGREE * WORD_BLOCKS;

// The term of degree i at place 0, where a locator's inverse is a^8.
fn first_term(locator: &Polynomial, i: usize) -> Lanes
    requires { i < 9 }
{
    locator[i].times_power(8 * i)
}

// The coefficients of z^10 in x, a x, .. a^10 x.
fn coordinates(x: Lanes) -> Lanes {
    let [x0, x1, x2, x3, x4, x5, x6, x7, x8, x9, x10] = x.0;
    Lanes([x10, x9, x8, x7, x6, x5, x4, x3, x2, x1 ^ x10, x0 ^ x9])
}

// A sequence repeats after this many numbers.
const PERIOD: usize = 2047;

// The numbers of a sequence that are kept: where a block of eleven places begins in the period, its last term, of degree 7 at most, ends 80 numbers further.
const SEQUENCE: usize = PERIOD + 80;

// Writes the sequence of x. With all exponents doubled z^22 is z^4 + 1: a number is the sum of those 18 and 22 before, too, and with even distances two numbers
// are made at once.
fn write_sequence(x: Lanes, s: &mut [u64; SEQUENCE]) {
    let mut y = x;
    for first in &mut s[..2 * DEGREE] {
        *first = y.0[DEGREE - 1];
        y = y.doubled();
    }
    for n in 2 * DEGREE..SEQUENCE {
        s[n] = s[n - 18] ^ s[n - 22];
    }
}

// The element from number n of a sequence on. It is taken by index: by `copy_from_slice` or `zip` the whole search takes up to three times as long.
fn element(s: &[u64; SEQUENCE], n: usize) -> Lanes
    requires { n + 11 ≤ 2127 }
{
    let mut x = Lanes::ZERO;
    for (j, coefficient) in x.0.iter_mut().enumerate() {
        *coefficient = s[n + j];
    }
    x
}

// The values of the first eleven places.
fn first_values(locator: &Polynomial) -> [Lanes; DEGREE] {
    let mut x1 = first_term(locator, 1);
    let mut x2 = first_term(locator, 2);
    let mut x4 = first_term(locator, 4);
    let mut x8 = first_term(locator, 8);
    let mut values = [Lanes::ZERO; DEGREE];
    for value in &mut values {
        *value = coordinates(locator[0].plus(x1.plus(x2)).plus(x4.plus(x8)));
        x1 = x1.doubled();
        x2 = x2.times_power(2);
        x4 = x4.times_power(4);
        x8 = x8.times_power(8);
    }
    values
}

// The values of the next eleven places: to nine the next value but one is added, then to two one of those. The constant term, which three values have, is added
// as a fourth.
fn next_values(values: &mut [Lanes; DEGREE], constant: Lanes) {
    for q in 0..DEGREE - 2 {
        values[q] = values[q].plus(values[q + 2]).plus(constant);
    }
    for q in 0..2 {
        values[DEGREE - 2 + q] = values[DEGREE - 2 + q].plus(values[q]).plus(constant);
    }
}

// The degrees of the terms with sequences.
const DEGREES: [usize; 4] = [3, 5, 6, 7];

// The inner words whose polynomial is not zero at place q of block k, from the value there and so many of the terms with sequences: that of degree i begins the
// block at number i * 11 * k of its sequence, less whole periods.
fn nonzero_at<const TERMS: usize>(
    value: Lanes,
    sequences: &[[u64; SEQUENCE]; TERMS],
    k: usize,
    q: usize,
) -> u64
    requires { (TERMS ≤ 4) × (k < 186) × (q < 11) }
{
    let mut x = value;
    for t in 0..TERMS {
        let i = DEGREES[t];
        x = x.plus(element(&sequences[t], i * DEGREE * k % PERIOD + i * q));
    }
    x.nonzero()
}

// The wrong places, block by block, with so many of the terms with sequences.
fn search_with<const TERMS: usize>(locator: &Polynomial, wrong: u64, flips: &mut [u64; PLACES])
    requires { TERMS ≤ 4 }
{
    let mut sequences = [[0; SEQUENCE]; TERMS];
    for t in 0..TERMS {
        write_sequence(first_term(locator, DEGREES[t]), &mut sequences[t]);
    }
    let mut values = first_values(locator);
    let constant = coordinates(locator[0]);
    for (k, places) in flips.chunks_mut(DEGREE).enumerate() {
        for (q, place) in places.iter_mut().enumerate() {
            *place = wrong & !nonzero_at(values[q], &sequences, k, q);
        }
        next_values(&mut values, constant);
    }
}

// The wrong places, by locator polynomials of the degree at most: up to degree 2 no term with a sequence is needed, up to degree 4 the first.
pub(crate) fn search(locator: &Polynomial, degree: usize, wrong: u64, flips: &mut [u64; PLACES]) {
    match degree {
        0..=2 => search_with::<0>(locator, wrong, flips),
        3..=4 => search_with::<1>(locator, wrong, flips),
        _ => search_with::<4>(locator, wrong, flips),
    }
}
