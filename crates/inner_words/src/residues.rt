// The residues of the 64 inner words of a frame modulo the eight factors of the divisor, bit-sliced: a number holds one coefficient of 64 residues. An
// inner word is a code word just where all eight of its residues are zero, and the residues give its parity bits.
ghost use Rattle.std.specs.Prelude.{◌≡◌, ◌+◌, ◌*◌, ◌≤◌};
ghost use Rattle.fields.specs.Places.{at};
ghost use Rattle.lanes.specs.Steps.Sliced.{or_to};
ghost use Rattle.words.specs.Bits.{bit_at};
ghost use Rattle.inner_words.specs.Steps.Passes.{wrong_words};
ghost use Rattle.inner_words.specs.Steps.InnerResidues.{residues_of, sum_at};

use crate::Interleaved;
use crate::factor_residues::residue;
use lanes::{DEGREE, FACTORS, WORD_BLOCKS};
use words::Inner;

// Blocks of eleven places that come after the first five in the data of an inner word.
pub const DATA_BLOCKS: usize = WORD_BLOCKS - FACTORS;

// The residues of the first 5 + 11 * blocks places modulo all eight factors, one after the other: the least polynomials of a, a^3, .. a^15, as 12-bit numbers.
pub(crate) fn residues(bytes: &[u8; Interleaved::BYTES], blocks: usize) -> [u64; Inner::PARITY]
    requires { blocks ≤ 185 }
    ensures { result ≡ residues_of bytes.now (5 + 11 * blocks) }
{
    let each = [
        residue::<2053>(bytes, blocks),
        residue::<2341>(bytes, blocks),
        residue::<2189>(bytes, blocks),
        residue::<2093>(bytes, blocks),
        residue::<3085>(bytes, blocks),
        residue::<3851>(bytes, blocks),
        residue::<2147>(bytes, blocks),
        residue::<2419>(bytes, blocks),
    ];
    let mut out = [0; Inner::PARITY];
    for (c, number) in out.iter_mut().enumerate() {
        *number = each[c / DEGREE][c % DEGREE].swap_bytes();
    }
    out
}

// The bits that are 1 in some of the residues of inner words of 2,040 places: those of the words that are no code words.
pub(crate) fn wrong(residues: &[u64; Inner::PARITY]) -> u64
    ensures { result ≡ or_to 88 (at residues.now) }
{
    let mut x = 0;
    for residue in residues {
        x |= *residue;
    }
    x
}

// The bits that are 1 in some sum of two residues.
pub(crate) fn wrong_sums(residues: &[u64; Inner::PARITY], added: &[u64; Inner::PARITY]) -> u64
    ensures { result ≡ or_to 88 (sum_at residues.now added.now) }
{
    let mut x = 0;
    for i in 0..Inner::PARITY {
        x |= residues[i] ^ added[i];
    }
    x
}

// The inner words of the block that are no code words: bit k, the highest first, is 1 for word k.
pub(crate) fn wrong_words(block: &[u8; Interleaved::BYTES]) -> u64
    ensures { result ≡ wrong_words (bit_at block.now) }
{
    wrong(&residues(block, WORD_BLOCKS))
}
