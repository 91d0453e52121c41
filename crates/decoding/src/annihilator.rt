// A polynomial of degree at most 8, not zero, that annihilates sixteen syndromes: the locators of up to eight errors are its roots. That of the shortest recurrence,
// by the Berlekamp-Massey algorithm, if it is found to annihilate; else by elimination, which stops at the number of errors, so that few errors are cheap.
ghost use Rattle.std.specs.Prelude.{◌≡◌, true, ℕ, ◌+◌, ◌-◌, ◌≤◌, ◌<◌, length};
ghost use Rattle.fields.specs.Lists.{tabulate};
ghost use Rattle.fields.specs.Places.{at};
ghost use Rattle.decoding.specs.Steps.Decoder.{Tables};
ghost use Rattle.decoding.specs.Steps.Annihilator.{Annihilates, power_row, PlusPart, Zeros, cell_cleared, cells_of, reduced, convolved, plus_shifted, adjusted, berlekamp_massey_step, berlekamp_massey, reversed_at};

use crate::{COEFFICIENTS, RADIUS, SYNDROMES, symbols};
use fields::BinaryField;

const CELLS: usize = RADIUS + COEFFICIENTS;

// How many entries, from the first on, are zero before one is not.
pub(crate) fn leading_zeros(entries: &[u16]) -> usize
    ensures { (result ≤ length entries.now) × ((k : ℕ) → k < result → at entries.now k ≡ 0) × (result < length entries.now → at entries.now result ≡ 0 → ⊥) }
{
    entries
        .iter()
        .position(|&x| x != 0)
        .unwrap_or(entries.len())
}

// A row of the elimination. Cells 0 to 7: what a polynomial makes of the syndromes from 0, .. 7 on. Cells 8 to 16: its coefficients, highest power
// first.
type Row = [u16; CELLS];

// The row of the polynomial x^d. Times 1: an element, whatever number t holds there.
fn power_row(field: BinaryField, t: [u16; SYNDROMES], d: usize) -> Row
    requires { d < 9 }
    ensures { result ≡ power_row field.entry.exp.now field.entry.log.now t d }
{
    let mut cells = [0u16; CELLS];
    for i in 0..RADIUS {
        cells[i] = field.product(1, t[d + i]);
    }
    cells[CELLS - 1 - d] = 1;
    cells
}

// Adds c times v to u, in the cells from `from` to below `to`.
fn add_scaled(field: BinaryField, u: &mut Row, c: u16, v: &Row, from: usize, to: usize)
    requires { (from ≤ to) × (to ≤ 17) }
    ensures { PlusPart field.entry.exp.now field.entry.log.now u.old c v.now from to u.new }
{
    for i in from..to {
        u[i] = symbols::sum(u[i], field.product(c, v[i]));
    }
}

// Makes cell j of u zero by the pivot v of that cell, whose coefficients before cell `top` are zero. A pivot that is missing is all zero and changes
// nothing, and so does one of a cell that is zero.
fn clear_cell(field: BinaryField, u: &mut Row, v: &Row, j: usize, top: usize)
    requires j_bound { (j < 8) × (8 ≤ top) × (top ≤ 17) }
    requires zeros { Zeros v.now j top }
    ensures { u.new ≡ cell_cleared field.entry.exp.now field.entry.log.now u.old v.now j }
{
    let c = field.product(u[j], field.inverse(v[j]));
    if c != 0 {
        add_scaled(field, u, c, v, j, RADIUS);
        add_scaled(field, u, c, v, top, CELLS);
    }
}

// Makes the cells 0 to 7 of u zero, each by its pivot.
fn reduce(field: BinaryField, u: &mut Row, pivots: &[Row; RADIUS], top: usize)
    requires le_top { (8 ≤ top) × (top ≤ 17) }
    requires by_index { (j : ℕ) → j < 8 → Zeros (cells_of pivots.now j) j top }
    ensures { u.new ≡ reduced field.entry.exp.now field.entry.log.now u.old pivots.now 8 }
{
    for (j, pivot) in pivots.iter().enumerate() {
        clear_cell(field, u, pivot, j, top);
    }
}

fn coefficients(u: Row) -> [u16; COEFFICIENTS]
    ensures { result ≡ tabulate 9 (λ k. at u (8 + k)) }
{
    let mut v = [0u16; COEFFICIENTS];
    v.copy_from_slice(&u[RADIUS..]);
    v
}

// A polynomial that annihilates the syndromes. The rows of 1, x, x^2, .. are reduced one after the other; one with a cell left that is not zero becomes
// the pivot of that cell, and the first with none is the answer. There are eight cells, so the ninth row has none left.
fn eliminated(field: BinaryField, t: [u16; SYNDROMES]) -> [u16; COEFFICIENTS]
    requires { Tables field.exp.now field.log.now }
    ensures { Annihilates field.entry.exp.now field.entry.log.now t result }
{
    let mut pivots = [[0u16; CELLS]; RADIUS];
    for d in 0..COEFFICIENTS {
        let mut row = power_row(field, t, d);
        reduce(field, &mut row, &pivots, CELLS - d);
        let j = leading_zeros(&row[..RADIUS]);
        if j == RADIUS {
            return coefficients(row);
        }
        pivots[j] = row;
    }
    [0; COEFFICIENTS]
}

// The shortest recurrence of the syndromes up to a step of Berlekamp and Massey's algorithm: the coefficients of its connection polynomial, lowest power
// first, without those above x^8, and its order. `previous` are the coefficients before the order last changed, `discrepancy` is the one for which it
// did, and `since` the number of steps up to then.
#[derive(Clone, Copy)]
struct Recurrence {
    coefficients: [u16; COEFFICIENTS],
    previous: [u16; COEFFICIENTS],
    order: usize,
    since: usize,
    discrepancy: u16,
}

// The sum of c i times t (n - i), for i below `count`.
fn convolved(field: BinaryField, c: &[u16], t: &[u16], n: usize, count: usize) -> u16
    requires { (n < length t.now) × (count ≤ n + 1) }
    ensures { result ≡ convolved field.entry.exp.now field.entry.log.now c.now t.now n count }
{
    let mut v: u16 = 0;
    for i in 0..count {
        v = symbols::sum(v, field.product(symbols::symbol(c, i), t[n - i]));
    }
    v
}

// c plus f times x^s times p.
fn plus_shifted(
    field: BinaryField,
    c: [u16; COEFFICIENTS],
    f: u16,
    p: [u16; COEFFICIENTS],
    s: usize,
) -> [u16; COEFFICIENTS]
    requires { s ≤ 16 }
    ensures { result ≡ plus_shifted field.entry.exp.now field.entry.log.now c f p s (9 - s) }
{
    let mut r = c;
    for k in 0..COEFFICIENTS.saturating_sub(s) {
        r[s + k] = symbols::sum(r[s + k], field.product(f, p[k]));
    }
    r
}

// The recurrence after step n, where that has the discrepancy d, not zero.
fn adjusted(field: BinaryField, s: Recurrence, n: usize, d: u16) -> Recurrence
    requires { (n < 16) × (s.order ≤ n) × (s.since ≤ n) }
    ensures { (result ≡ adjusted field.entry.exp.now field.entry.log.now n d s) × (result.order ≤ n + 1) × (result.since ≤ n + 1) }
{
    let c = s.coefficients;
    let p = s.previous;
    let f = field.product(d, field.inverse(s.discrepancy));
    let r = plus_shifted(field, c, f, p, n + 1 - s.since);
    if n < 2 * s.order {
        return Recurrence {
            coefficients: r,
            previous: p,
            ..s
        };
    }
    Recurrence {
        coefficients: r,
        previous: c,
        order: n + 1 - s.order,
        since: n + 1,
        discrepancy: d,
    }
}

fn berlekamp_massey_step(
    field: BinaryField,
    t: [u16; SYNDROMES],
    s: Recurrence,
    n: usize,
) -> Recurrence
    requires { (n < 16) × (s.order ≤ n) × (s.since ≤ n) }
    ensures { (result ≡ berlekamp_massey_step field.entry.exp.now field.entry.log.now t n s) × (result.order ≤ n + 1) × (result.since ≤ n + 1) }
{
    let d = convolved(field, &s.coefficients, &t, n, s.order + 1);
    if d == 0 {
        return s;
    }
    adjusted(field, s, n, d)
}

fn shortest_recurrence(field: BinaryField, t: [u16; SYNDROMES]) -> Recurrence
    ensures { (result ≡ berlekamp_massey field.entry.exp.now field.entry.log.now t 16) × (result.order ≤ 16) }
{
    let mut s = Recurrence {
        coefficients: [1, 0, 0, 0, 0, 0, 0, 0, 0],
        previous: [1, 0, 0, 0, 0, 0, 0, 0, 0],
        order: 0,
        since: 0,
        discrepancy: 1,
    };
    for n in 0..SYNDROMES {
        s = berlekamp_massey_step(field, t, s, n);
    }
    s
}

// Coefficient k of the polynomial that a recurrence of that order is: its coefficients, the last of them that of x^0. An order above 8 leaves no such
// polynomial; the test decides on what stands there then.
fn reversed_at(c: [u16; COEFFICIENTS], order: usize, k: usize) -> u16
    requires { (order ≤ 16) × (k < 9) }
    ensures { result ≡ reversed_at c order k }
{
    if k + order < RADIUS {
        return 0;
    }
    symbols::symbol(&c, k + order - RADIUS)
}

fn reversed(s: Recurrence) -> [u16; COEFFICIENTS]
    requires { s.order ≤ 16 }
    ensures { result ≡ tabulate 9 (reversed_at s.coefficients s.order) }
{
    let mut v = [0u16; COEFFICIENTS];
    for k in 0..COEFFICIENTS {
        v[k] = reversed_at(s.coefficients, s.order, k);
    }
    v
}

// Whether the polynomial v, of elements, annihilates the syndromes, its first coefficient but zeros being 1.
fn annihilates(field: BinaryField, t: [u16; SYNDROMES], v: [u16; COEFFICIENTS]) -> bool
    requires { (k : ℕ) → at v k < length field.log.now }
    ensures { result ≡ true → Annihilates field.entry.exp.now field.entry.log.now t v }
{
    if symbols::symbol(&v, leading_zeros(&v)) != 1 {
        return false;
    }
    for j in 0..RADIUS {
        if convolved(field, &v, &t, j + RADIUS, COEFFICIENTS) != 0 {
            return false;
        }
    }
    true
}

// A polynomial that annihilates the syndromes. The shortest recurrence does, where it is not too long: that is tested, which costs less than to eliminate.
pub fn annihilator(field: BinaryField, t: [u16; SYNDROMES]) -> [u16; COEFFICIENTS]
    requires { Tables field.exp.now field.log.now }
    ensures { Annihilates field.entry.exp.now field.entry.log.now t result }
{
    let v = reversed(shortest_recurrence(field, t));
    if annihilates(field, t, v) {
        return v;
    }
    eliminated(field, t)
}
