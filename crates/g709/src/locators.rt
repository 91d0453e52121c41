// The locator polynomials of the sixteen words of a row, side by side, so that their roots are found by columns. This pays where many words have several
// wrong bytes.
ghost use Rattle.std.specs.Prelude.{◌≡◌, cond, ℕ, ◌≤◌, ◌<◌, IfSome, eqb};
ghost use Rattle.fields.specs.Places.{at};
ghost use Rattle.decoding.specs.Steps.RootSearch.{kept};
ghost use Rattle.g709.specs.Steps.Locating.{polynomial_stored, LocatorsTo, LocatorSet, LocatorValues, PlacesTo};

use crate::columns::{CELLS, WORDS};
use crate::root_columns::{TERMS, VALUES};
use crate::{columns, root_columns};
use decoding::root_search::Places;
use decoding::{COEFFICIENTS, annihilator, root_search};

// Bytes of a word.
const BYTES: usize = 255;

// From so many words with more than one wrong byte on, a row's locator polynomials are evaluated by columns.
const CROWD: usize = 6;

// Stores the coefficients of polynomial k.
fn set_polynomial(terms: &mut [u8; TERMS], k: usize, polynomial: [u16; COEFFICIENTS])
    requires k_bound { k < 16 }
    requires by_index { (d : ℕ) → at polynomial d < 256 }
    ensures { terms.new ≡ polynomial_stored terms.old k polynomial }
{
    for d in 0..COEFFICIENTS {
        terms[WORDS * d + k] = polynomial[d] as u8;
    }
}

// Stores the locator polynomial of word k.
fn set_locator(s: &[u8; CELLS], k: usize, terms: &mut [u8; TERMS])
    requires { k < 16 }
    ensures { LocatorSet s.now k terms.old terms.new }
{
    let field = fields::field_c();
    let polynomial = annihilator::annihilator(field, columns::lane(s, k));
    set_polynomial(terms, k, polynomial);
}

// The locator polynomials of the sixteen words.
fn locators(s: &[u8; CELLS]) -> [u8; TERMS]
    ensures { LocatorsTo s.now 16 result }
{
    let mut terms = [0; TERMS];
    for k in 0..WORDS {
        set_locator(s, k, &mut terms);
    }
    terms
}

// Stores their values at all powers of a.
fn evaluate(s: &[u8; CELLS], values: &mut [u8; VALUES])
    ensures { LocatorValues s.now values.new }
{
    let mut terms = locators(s);
    root_columns::evaluate(&mut terms, values);
}

// Place i is kept where the value v is 0.
fn keep_root(p: Places, v: u8, i: usize) -> Places
    requires { (p.count ≤ 8) × (i < 255) }
    ensures { (result ≡ cond (eqb v 0) (kept i p) p) × (result.count ≤ 8) }
{
    if v == 0 {
        return root_search::keep(p, i as u16);
    }
    p
}

// The places of word k whose locators are roots: the locator of place i is a^(254 - i).
pub(crate) fn places(values: &[u8; VALUES], k: usize) -> Places
    requires { k < 16 }
    ensures { PlacesTo values.now k 255 result.at result.count }
{
    let mut p = Places::NONE;
    for i in 0..BYTES {
        p = keep_root(p, values[WORDS * (BYTES - 1 - i) + k], i);
    }
    p
}

// Whether three values are such as no single wrong byte has: x, y and z with y y other than x z.
fn several(x: u8, y: u8, z: u8) -> bool {
    y != 0 && columns::product(y, y) != columns::product(x, z)
}

// Whether many words of a row have more than one wrong byte, by a look at their syndromes that is wrong for few: what is found does not depend on it.
fn is_crowded(s: &[u8; CELLS]) -> bool {
    (0..WORDS)
        .filter(|&k| several(s[k], s[WORDS + k], s[2 * WORDS + k]))
        .count()
        >= CROWD
}

// The values of the locator polynomials, if the row has enough words with more than one wrong byte.
pub(crate) fn locate<'a>(s: &[u8; CELLS], values: &'a mut [u8; VALUES]) -> Option<&'a [u8; VALUES]>
    ensures { IfSome result (λ values. LocatorValues s.now values.now) }
{
    if is_crowded(s) {
        evaluate(s, values);
        Some(values)
    } else {
        None
    }
}
