// Outer words: refusals, values at the roots over any field, and the generator.
ghost use Rattle.std.specs.Prelude.{◌≡◌, length};
ghost use Rattle.fields.specs.Places.{all_below};
ghost use Rattle.decoding.specs.Steps.ByTables.{table_value, root_values};
ghost use Rattle.words.specs.OuterCode.{generator};
ghost use Rattle.words.specs.Answers.{refusal_number, refusal, within};

use crate::{Outer, Refusal};
use decoding::symbols;
use fields::BinaryField;

// A word, or data, with that many symbols; `fits` says that the output buffer has the answer's size. 6, 3 or 7.
#[tactic(auto, unfolding(crate::specs::Answers::refusal, crate::specs::Answers::within))]
pub(crate) fn tested(
    word: &[u16],
    shortest: usize,
    longest: usize,
    fits: bool,
) -> Result<(), Refusal>
    ensures { refusal_number result ≡ refusal (within shortest longest (length word.now)) fits (all_below 1024 word.now) }
{
    if word.len() < shortest || longest < word.len() {
        return Err(Refusal::WordLength);
    }
    if !fits {
        return Err(Refusal::BufferSize);
    }
    if !symbols::all_below(word, Outer::SYMBOLS) {
        return Err(Refusal::Symbol);
    }
    Ok(())
}

// The value of the word at x, by Horner's rule.
fn value(field: BinaryField, word: &[u16], x: u16) -> u16
    ensures { result ≡ table_value field.entry.exp.now field.entry.log.now word.now x }
{
    let mut v = 0;
    for &symbol in word {
        v = symbols::sum(field.product(v, x), symbol);
    }
    v
}

// The word's values at the sixteen roots a^0 to a^15.
pub fn root_values(field: BinaryField, word: &[u16]) -> [u16; Outer::PARITY]
    ensures { result ≡ root_values field.entry.exp.now field.entry.log.now word.now }
{
    let mut values = [0; Outer::PARITY];
    for j in 0..Outer::PARITY {
        values[j] = value(field, word, field.power(Outer::FIRST_ROOT + j as u16));
    }
    values
}

// The coefficients of the generator, the product of x + a^j over the sixteen roots, highest power first.
const GENERATOR: [u16; Outer::PARITY + 1] = [
    1, 568, 550, 748, 724, 650, 1005, 744, 27, 204, 617, 218, 595, 461, 746, 960, 888,
];

pub(crate) fn generator() -> [u16; Outer::PARITY + 1]
    ensures { result ≡ generator }
{
    GENERATOR
}
