// Division of outer words by the generator six symbols at a step, for the entries and for the crates above. The sixteen cells of the register stand in
// three numbers, ten bits each. A step takes the first six cells away and adds the parity of what they and the six symbols are together; parity respects
// sums, so that it is the sum of the parities of ten digits of six bits, and these stand in a table that the caller lends.
ghost use Rattle.std.specs.Prelude.{◌≡◌, true, ◌+◌, ◌*◌, ◌/◌, ◌%◌, ◌^◌, ◌≤◌, ◌<◌, eqb, length};
ghost use Rattle.std.specs.Int.Bits.{bit_or};
ghost use Rattle.fields.specs.Elements.{xor, powers_a, exponents_a};
ghost use Rattle.fields.specs.Places.{at, all_below};
ghost use Rattle.decoding.specs.Steps.ByTables.{root_values};
ghost use Rattle.words.specs.OuterCode.{outer_parity};
ghost use Rattle.words.specs.Steps.Division.{outer_remainder};
ghost use Rattle.words.specs.Steps.SixSymbols.{joined_from, symbol_of, six, Packs, unpacked, six_parity, digit_parities};

use crate::digit_table::{DIGIT_BITS, DIGIT_VALUES, DIGITS, PART, plus};
use crate::{Outer, reed_solomon};

// So many symbols are taken at a step.
pub const SYMBOLS: usize = 6;

const SYMBOL_BITS: usize = 10;

const SYMBOL_MASK: u64 = 1023;

// The last number of a register has so many symbols, and so many zero bits after them.
pub const LAST_SYMBOLS: usize = Outer::PARITY - 2 * SYMBOLS;

pub const LAST_ZEROS: usize = SYMBOL_BITS * (SYMBOLS - LAST_SYMBOLS);

const DIGIT_MASK: u64 = 63;

// The number that n symbols of the word from place i on are, the first the highest.
fn join(word: &[u16], i: usize, n: usize) -> u64
    requires { (i + n ≤ length word.now) × (n ≤ 6) × (all_below 1024 word.now ≡ true) }
    ensures { (result ≡ joined_from word.now i n) × (result < 2 ^ 60) }
{
    let mut x: u64 = 0;
    for j in 0..n {
        x = plus(x << SYMBOL_BITS, u64::from(word[i + j]));
    }
    x
}

// The division register: its cells 0 to 5, 6 to 11, and 12 to 15 with two zeros after them.
#[derive(Clone, Copy)]
pub struct Packed {
    pub high: u64,
    pub middle: u64,
    pub low: u64,
}

impl Packed {
    fn empty() -> Self
        ensures { (result.high ≡ 0) × (result.middle ≡ 0) × (result.low ≡ 0) }
    {
        Packed {
            high: 0,
            middle: 0,
            low: 0,
        }
    }

    // The entries for digit n of the table added.
    fn with_digit(self, table: &[u64], n: usize) -> Self
        requires { (length table.now ≡ 1920) × (n < 640) }
        ensures { (result.high ≡ xor self.high (at table.now n)) × (result.middle ≡ xor self.middle (at table.now (n + 640))) × (result.low ≡ xor self.low (at table.now (n + 1280))) }
    {
        Packed {
            high: plus(self.high, table[n]),
            middle: plus(self.middle, table[n + PART]),
            low: plus(self.low, table[n + 2 * PART]),
        }
    }

    // Each cell is zero.
    pub fn is_zero(self) -> bool
        ensures { result ≡ eqb (bit_or (bit_or self.high self.middle) self.low) 0 }
    {
        (self.high | self.middle | self.low) == 0
    }

    // The register after six symbols more.
    pub fn next(self, table: &[u64], x: u64) -> Self
        requires { (table.now ≡ digit_parities) × (self.high < 2 ^ 60) × (x < 2 ^ 60) }
        ensures { (result.high ≡ xor self.middle (six (six_parity (xor self.high x)) 0)) × (result.middle ≡ xor self.low (six (six_parity (xor self.high x)) 6)) × (result.low ≡ six (six_parity (xor self.high x)) 12) }
    {
        let p = six_parity(table, plus(self.high, x));
        Packed {
            high: plus(self.middle, p.high),
            middle: plus(self.low, p.middle),
            low: p.low,
        }
    }
}

// Digit d of six symbols, the lowest first.
fn digit(x: u64, d: usize) -> usize
    requires { d < 10 }
    ensures { result ≡ x / 2 ^ (6 * d) % 64 }
{
    ((x >> (DIGIT_BITS * d)) & DIGIT_MASK) as usize
}

// The parity of six symbols, as they stand in x.
pub fn six_parity(table: &[u64], x: u64) -> Packed
    requires { (table.now ≡ digit_parities) × (x < 2 ^ 60) }
    ensures { Packs result.high result.middle result.low (six_parity x) }
{
    let mut p = Packed::empty();
    for d in 0..DIGITS {
        p = p.with_digit(table, DIGIT_VALUES * d + digit(x, d));
    }
    p
}

// The register after all symbols of data: the parity symbols. The first symbols, so many that sixes remain, stand in a number with zeros before them: zeros
// leave the register empty.
fn divide(table: &[u64], data: &[u16]) -> Packed
    requires { (table.now ≡ digit_parities) × (all_below 1024 «data».now ≡ true) }
    ensures { Packs result.high result.middle result.low (outer_parity «data».now) }
{
    let first = data.len() % SYMBOLS;
    let mut p = six_parity(table, join(data, 0, first));
    for k in 0..data.len() / SYMBOLS {
        p = p.next(table, join(data, first + SYMBOLS * k, SYMBOLS));
    }
    p
}

// Symbol i of six.
fn symbol(x: u64, i: usize) -> u16
    requires { i < 6 }
    ensures { result ≡ symbol_of x i }
{
    ((x >> (SYMBOL_BITS * (SYMBOLS - 1 - i))) & SYMBOL_MASK) as u16
}

// The cells of the register.
fn unpacked(p: Packed) -> [u16; Outer::PARITY]
    ensures { result ≡ unpacked p.high p.middle p.low }
{
    let numbers = [p.high, p.middle, p.low];
    let mut cells = [0; Outer::PARITY];
    for i in 0..Outer::PARITY {
        cells[i] = symbol(numbers[i / SYMBOLS], i % SYMBOLS);
    }
    cells
}

// The parity symbols of data.
pub fn parity(table: &[u64], data: &[u16]) -> [u16; Outer::PARITY]
    requires { (table.now ≡ digit_parities) × (all_below 1024 «data».now ≡ true) }
    ensures { result ≡ outer_parity «data».now }
{
    unpacked(divide(table, data))
}

// The remainder of a word after division by the generator: the parity of all but the last sixteen symbols, and these, added. It is zero for a code word.
pub fn remainder(table: &[u64], word: &[u16]) -> Packed
    requires { (table.now ≡ digit_parities) × (16 ≤ length word.now) × (all_below 1024 word.now ≡ true) }
    ensures { Packs result.high result.middle result.low (outer_remainder word.now) }
{
    let from = word.len() - Outer::PARITY;
    let p = divide(table, &word[0..from]);
    Packed {
        high: plus(p.high, join(word, from, SYMBOLS)),
        middle: plus(p.middle, join(word, from + SYMBOLS, SYMBOLS)),
        low: plus(
            p.low,
            join(word, from + 2 * SYMBOLS, LAST_SYMBOLS) << LAST_ZEROS,
        ),
    }
}

// The values at the sixteen roots of a remainder, which are those of the word: the generator vanishes there.
pub(crate) fn root_values(rest: Packed) -> [u16; Outer::PARITY]
    ensures { result ≡ root_values powers_a exponents_a (unpacked rest.high rest.middle rest.low) }
{
    let cells = unpacked(rest);
    reed_solomon::root_values(fields::field_a(), &cells)
}
