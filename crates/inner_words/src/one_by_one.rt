// Inner words that are no code words, corrected one after the other by their residues.
ghost use Rattle.std.specs.Prelude.{◌≡◌, cond, ℕ, ◌<◌, length};
ghost use Rattle.fields.specs.Elements.{powers_b};
ghost use Rattle.decoding.specs.Steps.PowerTables.{PowerTables};
ghost use Rattle.words.specs.Bits.{bit_of, bit_at};
ghost use Rattle.words.specs.InnerCode.{is_inner};
ghost use Rattle.words.specs.InnerWords.{inner_word};
ghost use Rattle.inner_words.specs.Steps.InnerResidues.{WordResidues};
ghost use Rattle.inner_words.specs.Steps.Passes.{wrong_words, WordRestored, OneWord, EachWord};

use crate::Interleaved;
use crate::odd_syndromes::odd_syndromes;
use crate::places::has;
use decoding::power_tables;
use words::{Inner, wrong_places};

// Inner word k of the block becomes the code word within eight places; without one it is left as received. The answer is that it is left wrong.
fn correct_word(
    tables: &mut [u16],
    residues: &[u64; Inner::PARITY],
    k: usize,
    block: &mut [u8; Interleaved::BYTES],
) -> bool
    requires tables { PowerTables powers_b tables.old }
    requires word_residues { (k < 64) × WordResidues residues.now k block.old }
    ensures put { OneWord WordRestored k block.old block.new (cond result 1 0) }
    ensures tables { PowerTables powers_b tables.new }
{
    let e = wrong_places::errors_by_tables(tables, odd_syndromes(residues, k));
    if !wrong_places::explains(fields::field_b(), e) {
        return true;
    }
    wrong_places::invert(e, Interleaved::WORDS, k, block);
    false
}

// Inner word k is corrected where it is among those that are wrong; a code word stays as it is. The answer is that it is left wrong.
fn correct_wrong(
    tables: &mut [u16],
    residues: &[u64; Inner::PARITY],
    wrong: u64,
    k: usize,
    block: &mut [u8; Interleaved::BYTES],
) -> bool
    requires tables { PowerTables powers_b tables.old }
    requires small { k < 64 }
    requires k_value { bit_of 64 wrong k ≡ cond (is_inner (inner_word (bit_at block.old) k)) 0 1 }
    requires word_residues { bit_of 64 wrong k ≡ 1 → WordResidues residues.now k block.old }
    ensures put { OneWord WordRestored k block.old block.new (cond result 1 0) }
    ensures tables { PowerTables powers_b tables.new }
{
    has(wrong, k) && correct_word(tables, residues, k, block)
}

// Tables of powers to write into: their length is all that is promised.
fn blank_tables() -> [u16; power_tables::ENTRIES]
    ensures { length result ≡ 18784 }
{
    [0; power_tables::ENTRIES]
}

// The inner words of the block that are no code words become the code words within eight places, one after the other, by their residues; what is left wrong is
// the answer, bit k, the highest first, for word k.
pub(crate) fn correct_each(
    residues: &[u64; Inner::PARITY],
    wrong: u64,
    block: &mut [u8; Interleaved::BYTES],
) -> u64
    requires wrong_value { wrong ≡ wrong_words (bit_at block.old) }
    requires by_index { (k : ℕ) → k < 64 → bit_of 64 wrong k ≡ 1 → WordResidues residues.now k block.old }
    ensures { (result ≡ wrong_words (bit_at block.new)) × EachWord WordRestored block.old block.new }
{
    if wrong == 0 {
        return 0;
    }
    let mut tables = blank_tables();
    power_tables::empty_tables(&mut tables);
    let mut left = 0;
    for k in 0..Interleaved::WORDS {
        left = 2 * left + u64::from(correct_wrong(&mut tables, residues, wrong, k, block));
    }
    left
}
