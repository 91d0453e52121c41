// Candidates for all inner words at once (crate lanes): in each place the words to be inverted there. A candidate is taken after a test: only if the word with
// its places inverted is a code word, and at most eight places are inverted. So nothing is asked of the candidates themselves.
ghost use Rattle.std.specs.Prelude.{◌≡◌, ℕ, ◌<◌, length};
ghost use Rattle.words.specs.Bits.{bit_of, bit_at};
ghost use Rattle.inner_words.specs.Steps.Passes.{wrong_words, WordNearer, EachWord};
ghost use Rattle.inner_words.specs.Steps.InnerResidues.{WordResidues};
ghost use Rattle.inner_words.specs.Steps.Candidates.{Flipped, Raised, too_many, AsBlock, failing};

use crate::{Interleaved, places, residues};
use lanes::candidates;
use words::Inner;

// Inverts the places that `flips` has a 1 for, in the inner words that the mask has a 1 for.
fn flip_places(flips: &[u64; Inner::PLACES], mask: u64, block: &mut [u8; Interleaved::BYTES])
    ensures { Flipped flips.now mask block.old block.new }
{
    for (p, flip) in flips.iter().enumerate() {
        let x = places::place(block, p) ^ (*flip & mask);
        places::put_place(block, p, x);
    }
}

// One place more, in which the inner words of x are to be inverted: number j has the inner words that are to be inverted in more than j of the places so far.
fn raise(above: &mut [u64; Inner::RADIUS + 1], x: u64)
    ensures { Raised above.old x above.new }
{
    if x == 0 {
        return;
    }
    for j in (0..Inner::RADIUS).rev() {
        above[j + 1] |= above[j] & x;
    }
    above[0] |= x;
}

// Writes the candidates as a block: a 1 in each place that is to be inverted. The answer are the inner words that are to be in more places than the radius.
fn write_flips(flips: &[u64; Inner::PLACES], out: &mut [u8; Interleaved::BYTES]) -> u64
    ensures block { AsBlock flips.now out.new }
    ensures many { result ≡ too_many flips.now }
{
    let mut above = [0; Inner::RADIUS + 1];
    for (p, flip) in flips.iter().enumerate() {
        places::put_place(out, p, *flip);
        raise(&mut above, *flip);
    }
    above[Inner::RADIUS]
}

// The inner words whose candidate fails, by their residues. Residues are linear: those of a word with places inverted are its own plus those of the word that
// has a 1 in these places alone.
fn failing(residues: &[u64; Inner::PARITY], flips: &[u64; Inner::PLACES]) -> u64
    ensures { result ≡ failing residues.now flips.now }
{
    let mut inverted = crate::blank();
    let many = write_flips(flips, &mut inverted);
    let added = residues::residues(&inverted, lanes::WORD_BLOCKS);
    residues::wrong_sums(residues, &added) | many
}

// Takes the candidates in the block, where they hold; what is left as it was and is no code word is the answer, bit k, the highest first, for word k.
fn take(
    residues: &[u64; Inner::PARITY],
    wrong: u64,
    flips: &[u64; Inner::PLACES],
    block: &mut [u8; Interleaved::BYTES],
) -> u64
    requires wrong_value { wrong ≡ wrong_words (bit_at block.old) }
    requires by_index { (k : ℕ) → k < 64 → bit_of 64 wrong k ≡ 1 → WordResidues residues.now k block.old }
    ensures { (result ≡ wrong_words (bit_at block.new)) × EachWord WordNearer block.old block.new }
{
    let left = wrong & failing(residues, flips);
    flip_places(flips, wrong ^ left, block);
    left
}

// More wrong inner words than this are worth the search for candidates: for one it takes as long as for all.
const FEW: u32 = 19;

// Candidates to write into: their length is all that is promised.
fn blank() -> [u64; Inner::PLACES]
    ensures { length result ≡ 2040 }
{
    [0; Inner::PLACES]
}

// Where many inner words of the block are wrong, candidates are found by the residues of the wrong ones, and taken where they hold; the wrong words that are
// left are the answer.
pub(crate) fn correct(
    residues: &[u64; Inner::PARITY],
    wrong: u64,
    block: &mut [u8; Interleaved::BYTES],
) -> u64
    requires wrong_value { wrong ≡ wrong_words (bit_at block.old) }
    requires by_index { (k : ℕ) → k < 64 → bit_of 64 wrong k ≡ 1 → WordResidues residues.now k block.old }
    ensures { (result ≡ wrong_words (bit_at block.new)) × EachWord WordNearer block.old block.new }
{
    if wrong.count_ones() <= FEW {
        return wrong;
    }
    let mut flips = blank();
    candidates::find(residues, wrong, &mut flips);
    take(residues, wrong, &flips, block)
}
