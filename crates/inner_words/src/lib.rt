// The 64 inner words of a frame, bit-sliced: eight bytes are one place of them all, the bits of one number (module places). Their residues modulo the eight
// factors of the divisor (modules residues and factor_residues) give the parity bits (module parity), and tell which inner words of a block are no code words.
// Those with a single wrong place are corrected at sight (module singles), many others at once, as candidates that are tested (module candidates, over crate
// lanes), what is left one by one (module one_by_one); each way answers the words that it leaves wrong.
#![tactic(auto)]

ghost use Rattle.std.specs.Prelude.{◌≡◌, length};
ghost use Rattle.fields.specs.Steps.Buffers.{Placed};
ghost use Rattle.words.specs.Bits.{bit_at, bytes_of};
ghost use Rattle.words.specs.InnerWords.{with_parity};
ghost use Rattle.inner_words.specs.Steps.BitSliced.{parity_places, parity_bytes};
ghost use Rattle.inner_words.specs.Steps.Passes.{InnerPassed, inner_codes};

use words::Inner;

mod candidates;
mod factor_residues;
mod odd_syndromes;
mod one_by_one;
mod parity;
mod parity_matrix;
pub mod places;
mod residues;
mod singles;

// The inner words, interleaved bit by bit.
#[derive(Clone, Copy)]
pub struct Interleaved;

impl Interleaved {
    // As many as a number has bits, so that eight bytes hold one place of them all.
    pub const WORDS: usize = 64;

    pub const PLACE_BYTES: usize = Interleaved::WORDS / 8;

    // Data places of an inner word, and the bytes of all of them.
    pub const DATA_PLACES: usize = Inner::DATA;

    pub const DATA_BYTES: usize = Interleaved::PLACE_BYTES * Interleaved::DATA_PLACES;

    pub const BYTES: usize = Interleaved::PLACE_BYTES * Inner::PLACES;
}

// What the parity places are to be, from the data places.
fn parity_places(bytes: &[u8; Interleaved::BYTES]) -> [u64; Inner::PARITY]
    ensures { result ≡ parity_places bytes.now }
{
    let residues = residues::residues(bytes, residues::DATA_BLOCKS);
    parity::from_residues(&residues)
}

// Writes the parity places.
fn store(cells: &[u64; Inner::PARITY], out: &mut [u8; Interleaved::BYTES])
    ensures { Placed 15616 (parity_bytes cells.now) out.old out.new }
{
    for (q, cell) in cells.iter().enumerate() {
        places::put_place(out, Interleaved::DATA_PLACES + q, *cell);
    }
}

// Writes the parity bits of the inner words after the data bytes of the frame.
pub fn encode(out: &mut [u8])
    requires { length out.old ≡ 16320 }
    ensures { out.new ≡ bytes_of 16320 (with_parity (bit_at out.old)) }
{
    let Some(block) = out.first_chunk_mut() else {
        unreachable!();
    };
    let cells = parity_places(block);
    store(&cells, block);
}

// Each inner word of the block is a code word.
pub fn are_code_words(block: &[u8]) -> bool
    requires { length block.now ≡ 16320 }
    ensures { result ≡ inner_codes (bit_at block.now) }
{
    residues::wrong_words(block.try_into().unwrap()) == 0
}

// A block to write into: its length is all that is promised.
pub fn blank() -> [u8; Interleaved::BYTES]
    ensures { length result ≡ 16320 }
{
    [0; Interleaved::BYTES]
}

// The inner pass over a copy of the received block: each inner word becomes the code word within eight places; where there is none it is left as received.
// The answer is the words that are left: bit k, the highest first, is 1 where word k is no code word and was left as received. Not inlined: its arrays leave the stack with it.
#[inline(never)]
pub fn correct(block: &mut [u8]) -> u64
    requires { length block.old ≡ 16320 }
    ensures { InnerPassed block.old block.new result }
{
    let Some(block) = block.first_chunk_mut() else {
        unreachable!();
    };
    let residues = residues::residues(block, lanes::WORD_BLOCKS);
    let wrong = residues::wrong(&residues);
    if wrong == 0 {
        return 0;
    }
    let many = singles::correct_singles(&residues, wrong, block);
    let left = candidates::correct(&residues, many, block);
    one_by_one::correct_each(&residues, left, block)
}
