// Division of the sixteen words of a row by the generator, a column at a step: cell i of the sixteen registers is a column. A row's data is first folded to 81 columns, which
// takes sums alone.
ghost use Rattle.std.specs.Prelude.{◌≡◌, List, ℕ, ◌+◌, ◌≤◌, ◌<◌, length};
ghost use Rattle.fields.specs.Elements.{xor};
ghost use Rattle.fields.specs.Places.{at};
ghost use Rattle.g709.specs.Steps.Registers.{over, registers, row_divided, row_remainders, leading, cell_stored, cells_stored};
ghost use Rattle.g709.specs.Steps.Folding.{taps, QuotientTo, Folded};

use crate::columns::{CELLS, PARITY, WORDS, product};

// Bytes of a row's data, and of a row.
pub(crate) const DATA: usize = 239 * WORDS;

pub(crate) const ROW: usize = 255 * WORDS;

// The generator's coefficients below x^16, highest power first.
const GENERATOR: [u8; 16] = [
    59, 13, 104, 189, 68, 209, 30, 8, 163, 65, 41, 229, 98, 50, 36, 59,
];

fn leading(r: &[u8; CELLS], columns: &[u8; LEFT], from: usize) -> [u8; WORDS]
    requires { from + 16 ≤ 1296 }
    ensures { result ≡ leading r.now columns.now from }
{
    let mut f = [0; WORDS];
    for k in 0..WORDS {
        f[k] = r[k] ^ columns[from + k];
    }
    f
}

// Stores cell k of the registers.
fn store(r: &mut [u8; CELLS], f: &[u8; WORDS], k: usize)
    requires { k < 16 }
    ensures { r.new ≡ cell_stored r.old f.now k (at GENERATOR k) }
{
    let n = WORDS * k;
    let y = GENERATOR[k];
    for j in 0..WORDS {
        r[n + j] = r[n + WORDS + j] ^ product(f[j], y);
    }
}

// One column more. Written out, so that each product is a few doublings: with a loop a row's check takes 2.6 times as many instructions.
fn step(r: &mut [u8; CELLS], columns: &[u8; LEFT], from: usize)
    requires { from + 16 ≤ 1296 }
    ensures { r.new ≡ cells_stored r.old (leading r.old columns.now from) 16 }
{
    let f = leading(r, columns, from);
    store(r, &f, 0);
    store(r, &f, 1);
    store(r, &f, 2);
    store(r, &f, 3);
    store(r, &f, 4);
    store(r, &f, 5);
    store(r, &f, 6);
    store(r, &f, 7);
    store(r, &f, 8);
    store(r, &f, 9);
    store(r, &f, 10);
    store(r, &f, 11);
    store(r, &f, 12);
    store(r, &f, 13);
    store(r, &f, 14);
    store(r, &f, 15);
}

// The registers after the first 65 of the columns.
fn steps(columns: &[u8; LEFT]) -> [u8; CELLS]
    ensures { result ≡ row_divided columns.now 0 65 }
{
    let mut r = [0; CELLS];
    for s in 0..65 {
        step(&mut r, columns, WORDS * s);
    }
    r
}

// The quotient by the polynomial of 22 terms has 174 columns, and 81 columns are left. Before and behind the quotient stand 81 columns of zeros.
const QUOTIENT: usize = 174 * WORDS;

const LEFT: usize = 81 * WORDS;

const SPACE: usize = LEFT + QUOTIENT + LEFT;

// The exponents of that polynomial below 81.
const EXPONENTS: [usize; 21] = [
    0, 1, 2, 3, 4, 9, 17, 20, 22, 23, 30, 32, 41, 42, 43, 48, 51, 57, 69, 75, 79,
];

fn taps(q: &[u8; SPACE], i: usize) -> u8
    requires { i < 4080 }
    ensures { result ≡ taps q.now i }
{
    let mut sum = 0;
    for e in EXPONENTS {
        sum ^= q[i + WORDS * e];
    }
    sum
}

// Writes the columns that are left: 65 of the payload and sixteen of zeros, with the quotient's multiple added. Into the caller's array: as an answer they would stand on
// the stack twice.
fn fold(payload: &[u8; DATA], columns: &mut [u8; LEFT])
    ensures { (q : List ℕ) × QuotientTo (at payload.now) 2784 q × Folded (at payload.now) q columns.new }
{
    let mut q = [0; SPACE];
    for i in 0..QUOTIENT {
        q[LEFT + i] = payload[i] ^ taps(&q, i);
    }
    for i in 0..LEFT - PARITY {
        columns[i] = payload[QUOTIENT + i] ^ taps(&q, QUOTIENT + i);
    }
    for i in LEFT - PARITY..LEFT {
        columns[i] = taps(&q, QUOTIENT + i);
    }
}

// Adds sixteen columns to the registers.
fn add(r: &mut [u8; CELLS], columns: &[u8])
    requires { length columns.now ≡ 256 }
    ensures { r.new ≡ over r.old 0 256 (λ i. xor (at r.old i) (at columns.now i)) }
{
    for i in 0..PARITY {
        r[i] ^= columns[i];
    }
}

// The registers after the 239 columns of data: the parity bytes.
pub(crate) fn divide(payload: &[u8; DATA]) -> [u8; CELLS]
    ensures { result ≡ registers (at payload.now) 239 }
{
    let mut columns = [0; LEFT];
    fold(payload, &mut columns);
    let mut r = steps(&columns);
    add(&mut r, &columns[LEFT - PARITY..]);
    r
}

// The remainders of the sixteen words of a row. A word's values at the roots are those of its remainder.
pub(crate) fn remainders(row: &[u8; ROW]) -> [u8; CELLS]
    ensures { result ≡ row_remainders row.now 0 }
{
    let mut r = divide(row[..DATA].try_into().unwrap());
    add(&mut r, &row[DATA..]);
    r
}
