// Division of outer words by the generator, a symbol at a step. A step takes a multiple of the generator away. An element is the sum
// of a low and a high digit of five bits, so a step adds sixteen symbols for each digit, from two tables that are made once, and multiplies nothing.
ghost use Rattle.std.specs.Prelude.{◌≡◌, true, ◌≤◌, ◌<◌};
ghost use Rattle.fields.specs.Lists.{tabulate};
ghost use Rattle.fields.specs.Elements.{times_a};
ghost use Rattle.fields.specs.Places.{at, all_below};
ghost use Rattle.words.specs.ReedSolomon.{shifted_in};
ghost use Rattle.words.specs.OuterCode.{generator, outer_parity};
ghost use Rattle.words.specs.Steps.Division.{multiples};

use crate::{Outer, reed_solomon};
use decoding::symbols::sum;

// A digit has so many values.
const DIGITS: u16 = 32;

const CELLS: usize = DIGITS as usize * Outer::PARITY;

// The multiples of the generator by `unit` times each digit, without their leading coefficients: sixteen symbols for each digit.
fn multiples(unit: u16) -> [u16; CELLS]
    requires { unit ≤ 32 }
    ensures { result ≡ multiples unit }
{
    let field = fields::field_a();
    let generator = reed_solomon::generator();
    let mut table = [0; CELLS];
    for n in 0..CELLS {
        let k = (n / Outer::PARITY) as u16;
        table[n] = field.product(unit * k, generator[n % Outer::PARITY + 1]);
    }
    table
}

// The multiples by the low digits, and those by the high digits.
#[derive(Drop)]
pub(crate) struct MultipleTables {
    low: [u16; CELLS],
    high: [u16; CELLS],
    ghost made: { (low ≡ multiples 1) × (high ≡ multiples 32) },
}

pub(crate) fn tables() -> MultipleTables {
    MultipleTables {
        low: multiples(1),
        high: multiples(DIGITS),
    }
}

// The division register: the remainder so far, highest power first.
#[derive(Clone, Copy)]
pub struct Register {
    pub cells: [u16; Outer::PARITY],
}

impl Register {
    const LAST: usize = Outer::PARITY - 1;

    pub(crate) fn empty() -> Self
        ensures { result.cells ≡ tabulate 16 (λ i. 0) }
    {
        Register {
            cells: [0; Outer::PARITY],
        }
    }

    // The register after one more symbol.
    pub(crate) fn next(mut self, tables: &MultipleTables, s: u16) -> Self
        requires { (at self.cells 0 < 1024) × (s < 1024) }
        ensures { result.cells ≡ shifted_in times_a 16 (at generator) self.cells s }
    {
        let f = sum(self.cells[0], s);
        let l = usize::from(f % DIGITS) * Outer::PARITY;
        let h = usize::from(f / DIGITS) * Outer::PARITY;
        for i in 0..Register::LAST {
            self.cells[i] = sum(
                self.cells[i + 1],
                sum(tables.low[l + i], tables.high[h + i]),
            );
        }
        self.cells[Register::LAST] = sum(
            tables.low[l + Register::LAST],
            tables.high[h + Register::LAST],
        );
        self
    }
}

// The register after all symbols of data: the parity symbols.
pub(crate) fn divide(tables: &MultipleTables, data: &[u16]) -> Register
    requires { all_below 1024 «data».now ≡ true }
    ensures { result.cells ≡ outer_parity «data».now }
{
    let mut register = Register::empty();
    for &symbol in data {
        register = register.next(tables, symbol);
    }
    register
}
