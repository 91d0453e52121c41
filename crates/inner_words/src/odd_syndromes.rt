// The odd syndromes of an inner word, its values at a, a^3, .. a^15, from its residues.
ghost use Rattle.std.specs.Prelude.{◌≡◌, ◌*◌, ◌<◌};
ghost use Rattle.fields.specs.Lists.{tabulate};
ghost use Rattle.fields.specs.Elements.{powers_b};
ghost use Rattle.fields.specs.Steps.ByTables.{table_power};
ghost use Rattle.words.specs.Bits.{bit_of};
ghost use Rattle.inner_words.specs.Steps.InnerResidues.{odd_syndrome};

use crate::places::has;
use words::Inner;
use words::wrong_places::OddSyndromes;

// a^n, if x has inner word k; else 0.
fn term(x: u64, k: usize, n: u16) -> u16
    requires { k < 64 }
    ensures { result ≡ bit_of 64 x k * table_power powers_b n }
{
    u16::from(has(x, k)) * fields::field_b().power(n)
}

// Odd syndrome j of inner word k, its value at a^(2 j + 1), from its residue modulo factor j: the sum of the terms.
pub(crate) fn odd_syndrome(residues: &[u64; Inner::PARITY], k: usize, j: usize) -> u16
    requires { (k < 64) × (j < 8) }
    ensures { result ≡ odd_syndrome powers_b residues.now k j }
{
    let mut v = 0;
    for i in 0..lanes::DEGREE {
        v ^= term(residues[lanes::DEGREE * j + i], k, ((2 * j + 1) * i) as u16);
    }
    v
}

// All eight of inner word k.
pub(crate) fn odd_syndromes(residues: &[u64; Inner::PARITY], k: usize) -> OddSyndromes
    requires { k < 64 }
    ensures { result.at ≡ tabulate 8 (odd_syndrome powers_b residues.now k) }
{
    let mut at = [0; lanes::FACTORS];
    for (j, value) in at.iter_mut().enumerate() {
        *value = odd_syndrome(residues, k, j);
    }
    OddSyndromes { at }
}
