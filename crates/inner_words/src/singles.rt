// Inner words with a single wrong place, corrected at sight by their residues.
ghost use Rattle.std.specs.Prelude.{◌≡◌, true, false, cond, ℕ, ◌<◌};
ghost use Rattle.fields.specs.Elements.{powers_b};
ghost use Rattle.fields.specs.Steps.ByTables.{table_power};
ghost use Rattle.words.specs.Bits.{bit_of, bit_at};
ghost use Rattle.words.specs.InnerCode.{is_inner};
ghost use Rattle.words.specs.InnerWords.{inner_word};
ghost use Rattle.inner_words.specs.Steps.InnerResidues.{WordResidues, odd_syndrome, is_single};
ghost use Rattle.inner_words.specs.Steps.Passes.{wrong_words, WordRestored, WordNearer, OneWord, EachWord};

use crate::Interleaved;
use crate::odd_syndromes::odd_syndrome;
use crate::places::has;
use decoding::symbols;
use words::{Inner, wrong_places};

// The order of a.
const ORDER: usize = (1 << lanes::DEGREE) - 1;

// a^n, by one division: the exponent may be many times the order.
fn power(n: usize) -> u16
    ensures { result ≡ table_power powers_b n }
{
    fields::field_b().exp[n % ORDER]
}

// Inner word k has the odd syndromes of a single wrong place, whose locator is a^e, at a^3, .. a^15 too.
fn is_single(residues: &[u64; Inner::PARITY], k: usize, e: usize) -> bool
    requires small { (k < 64) × (e < 2040) }
    requires k_value { odd_syndrome powers_b residues.now k 0 ≡ table_power powers_b e }
    ensures { result ≡ is_single powers_b residues.now k e }
{
    (1..lanes::FACTORS).all(|j| odd_syndrome(residues, k, j) == power((2 * j + 1) * e))
}

// Inner word k of the block is corrected if a single place of it is wrong, and the answer is true; else it is left as received.
fn correct_single(
    residues: &[u64; Inner::PARITY],
    k: usize,
    block: &mut [u8; Interleaved::BYTES],
) -> bool
    requires small { k < 64 }
    requires word_residues { WordResidues residues.now k block.old }
    ensures corrected { result ≡ true → OneWord WordRestored k block.old block.new 0 }
    ensures left { result ≡ false → block.new ≡ block.old }
{
    let x = odd_syndrome(residues, k, 0);
    let e = usize::from(symbols::symbol(fields::field_b().log, usize::from(x)));
    if e >= Inner::PLACES || x != power(e) || !is_single(residues, k, e) {
        return false;
    }
    wrong_places::flip(block, Interleaved::WORDS * (Inner::PLACES - 1 - e) + k, 1);
    true
}

// Inner word k is tried where it is among those that are wrong. The answer is that it is left wrong.
fn try_single(
    residues: &[u64; Inner::PARITY],
    wrong: u64,
    k: usize,
    block: &mut [u8; Interleaved::BYTES],
) -> bool
    requires small { k < 64 }
    requires k_value { bit_of 64 wrong k ≡ cond (is_inner (inner_word (bit_at block.old) k)) 0 1 }
    requires word_residues { bit_of 64 wrong k ≡ 1 → WordResidues residues.now k block.old }
    ensures { OneWord WordNearer k block.old block.new (cond result 1 0) }
{
    has(wrong, k) && !correct_single(residues, k, block)
}

// The inner words of the block with a single wrong place are corrected by their residues; what is left wrong is the answer, bit k, the highest first, for
// word k.
pub(crate) fn correct_singles(
    residues: &[u64; Inner::PARITY],
    wrong: u64,
    block: &mut [u8; Interleaved::BYTES],
) -> u64
    requires wrong_value { wrong ≡ wrong_words (bit_at block.old) }
    requires by_index { (k : ℕ) → k < 64 → bit_of 64 wrong k ≡ 1 → WordResidues residues.now k block.old }
    ensures { (result ≡ wrong_words (bit_at block.new)) × EachWord WordNearer block.old block.new }
{
    let mut left = 0;
    for k in 0..Interleaved::WORDS {
        left = 2 * left + u64::from(try_single(residues, wrong, k, block));
    }
    left
}
