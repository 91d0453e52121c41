// The places of a word, never of the omitted front, whose locators are roots of a polynomial: from place to place each term is divided by a power of a, which lowers
// its exponent, and a root that is found is divided out; the last by the table of exponents.
ghost use Rattle.std.specs.Prelude.{◌≡◌, ℕ, ◌≤◌, ◌<◌, length, MatchOption};
ghost use Rattle.fields.specs.Places.{at};
ghost use Rattle.decoding.specs.Steps.Decoder.{Tables};
ghost use Rattle.decoding.specs.Steps.RootSearch.{Roots, with_term, terms_to, exponents_of, steps_of, Exponents, powers_to, lowered, FirstRoot, quotient_of, kept};

use crate::annihilator::leading_zeros;
use crate::exponents::{exponent, less};
use crate::{COEFFICIENTS, RADIUS, locator, symbols};
use fields::BinaryField;

// A term of a polynomial at a locator: its exponent, and by how much that falls from one place to the next.
#[derive(Clone, Copy)]
struct Term {
    exponent: usize,
    step: usize,
}

// The terms of a polynomial at a locator, but for those that are zero: the first `count`.
#[derive(Clone, Copy)]
struct Terms {
    terms: [Term; COEFFICIENTS],
    count: usize,
}

// The terms with one more, if its value is not zero. From one place to the next it is divided by that power of a.
fn with_term(field: BinaryField, t: Terms, value: u16, power: u16) -> Terms
    requires { t.count < 9 }
    ensures { result ≡ with_term field.entry.log.now value power t }
{
    if value == 0 {
        return t;
    }
    let count = t.count;
    let mut terms = t.terms;
    terms[count] = Term {
        exponent: exponent(field, value),
        step: exponent(field, power),
    };
    Terms {
        terms,
        count: count + 1,
    }
}

// The terms at the locator x.
fn terms_at(field: BinaryField, polynomial: &[u16; COEFFICIENTS], x: u16) -> Terms
    ensures { result ≡ terms_to field.entry.exp.now field.entry.log.now polynomial.now x 9 }
{
    let mut t = Terms {
        terms: [Term {
            exponent: 0,
            step: 0,
        }; COEFFICIENTS],
        count: 0,
    };
    let mut power: u16 = 1;
    for d in 0..COEFFICIENTS {
        let value = field.product(power, polynomial[RADIUS - d]);
        t = with_term(field, t, value, field.power(d as u16));
        power = field.product(x, power);
    }
    t
}

// The sum of the first `count` terms, which are moved on to the next place.
fn next_value(field: BinaryField, terms: &mut [Term; COEFFICIENTS], count: usize) -> u16
    requires exponents { Exponents field.exp.now count (exponents_of terms.old) }
    requires steps { Exponents field.exp.now count (steps_of terms.old) }
    ensures value { result ≡ powers_to field.entry.exp.now (exponents_of terms.old) count }
    ensures exponents_after { exponents_of terms.new ≡ lowered (length field.entry.exp.now) (exponents_of terms.old) (steps_of terms.old) count }
    ensures steps_after { steps_of terms.new ≡ steps_of terms.old }
{
    let mut v: u16 = 0;
    for l in 0..count {
        let term = terms[l];
        v = symbols::sum(v, field.exp[term.exponent]);
        terms[l] = Term {
            exponent: less(field.exp.len(), term.exponent, term.step),
            step: term.step,
        };
    }
    v
}

// The first place from i on whose locator is a root of c x + d, if there is one: the exponent of the root d / c tells its place.
fn linear_root(
    field: BinaryField,
    polynomial: &[u16; COEFFICIENTS],
    n: usize,
    i: usize,
) -> Option<usize>
    requires tables { Tables field.exp.now field.log.now }
    requires n_in_bounds { (n ≤ length field.exp.now) × (n < 65536) × (i ≤ n) }
    requires by_index { ((k : ℕ) → at polynomial.now k < length field.log.now) × ((k : ℕ) → k < 7 → at polynomial.now k ≡ 0) }
    ensures { MatchOption result (FirstRoot field.entry.exp.now field.entry.log.now polynomial.now n i n) (λ r. (r < n) × FirstRoot field.entry.exp.now field.entry.log.now polynomial.now n i r) }
{
    let c = polynomial[COEFFICIENTS - 2];
    let d = polynomial[COEFFICIENTS - 1];
    if c == 0 {
        if d == 0 {
            return if i < n { Some(i) } else { None };
        }
        return None;
    }
    if d == 0 {
        return None;
    }
    let e = less(field.exp.len(), exponent(field, d), exponent(field, c));
    if n <= e {
        return None;
    }
    let r = n - 1 - e;
    if r < i { None } else { Some(r) }
}

// The first place from i on whose locator is a root, if there is one. A single term has none.
fn next_root(
    field: BinaryField,
    polynomial: &[u16; COEFFICIENTS],
    n: usize,
    i: usize,
) -> Option<usize>
    requires tables { Tables field.exp.now field.log.now }
    requires n_in_bounds { (n ≤ length field.exp.now) × (n < 65536) × (i ≤ n) }
    requires by_index { (k : ℕ) → at polynomial.now k < length field.log.now }
    ensures { MatchOption result (FirstRoot field.entry.exp.now field.entry.log.now polynomial.now n i n) (λ r. (r < n) × FirstRoot field.entry.exp.now field.entry.log.now polynomial.now n i r) }
{
    if COEFFICIENTS - 2 <= leading_zeros(polynomial) {
        return linear_root(field, polynomial, n, i);
    }
    let t = terms_at(field, polynomial, locator(field, n, i));
    let mut terms = t.terms;
    let count = t.count;
    if count == 1 {
        return None;
    }
    for j in i..n {
        if next_value(field, &mut terms, count) == 0 {
            return Some(j);
        }
    }
    None
}

// Divides a polynomial by x + r, where r is a root: Horner's rule gives the coefficients of the quotient.
fn divide(field: BinaryField, polynomial: &mut [u16; COEFFICIENTS], r: u16)
    ensures { polynomial.new ≡ quotient_of field.entry.exp.now field.entry.log.now polynomial.old r }
{
    let mut v: u16 = 0;
    for k in 0..COEFFICIENTS {
        let c = polynomial[k];
        polynomial[k] = v;
        v = symbols::sum(field.product(v, r), c);
    }
}

// The first `count` of `at` are places of a word, in ascending order.
#[derive(Clone, Copy)]
pub struct Places {
    pub at: [u16; RADIUS],
    pub count: usize,
}

impl Places {
    pub const NONE: Places = Places {
        at: [0; RADIUS],
        count: 0,
    };
}

// Place i is kept if there is room.
pub fn keep(p: Places, i: u16) -> Places
    requires { p.count ≤ 8 }
    ensures { result ≡ kept i p }
{
    let count = p.count;
    if RADIUS <= count {
        return p;
    }
    let mut at = p.at;
    at[count] = i;
    Places {
        at,
        count: count + 1,
    }
}

// The places of a word of n places whose locators are roots of the polynomial. A root that is found is divided out: the places after it have fewer terms.
pub(crate) fn roots(field: BinaryField, polynomial: [u16; COEFFICIENTS], n: usize) -> Places
    requires tables { Tables field.exp.now field.log.now }
    requires n_in_bounds { (n ≤ length field.exp.now) × (n < 65536) }
    requires by_index { (k : ℕ) → at polynomial k < length field.log.now }
    ensures { Roots field.entry.exp.now field.entry.log.now polynomial n n result.at result.count }
{
    let mut p = Places::NONE;
    let mut quotient = polynomial;
    let mut next = next_root(field, &quotient, n, 0);
    while let Some(i) = next {
        p = keep(p, i as u16);
        divide(field, &mut quotient, locator(field, n, i));
        next = next_root(field, &quotient, n, i + 1);
    }
    p
}
