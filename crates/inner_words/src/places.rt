// One place of every inner word: eight bytes of a block are the 64 bits of one number.
ghost use Rattle.std.specs.Prelude.{◌≡◌, cond, ◌+◌, ◌*◌, ◌≤◌, ◌<◌, length};
ghost use Rattle.fields.specs.Lists.{tabulate};
ghost use Rattle.fields.specs.Steps.Buffers.{Placed};
ghost use Rattle.words.specs.Bits.{bit_of};
ghost use Rattle.inner_words.specs.Steps.BitSliced.{place_at, byte_of64};
ghost use Rattle.inner_words.specs.Steps.InnerResidues.{loaded_at, difference_from};

use crate::Interleaved;

// Place p of every inner word: bit k, the highest first, is that of word k.
pub(crate) fn place(bytes: &[u8], p: usize) -> u64
    requires { 8 * p + 8 ≤ length bytes.now }
    ensures { result ≡ place_at bytes.now p }
{
    let i = Interleaved::PLACE_BYTES * p;
    u64::from_be_bytes(bytes[i..i + Interleaved::PLACE_BYTES].try_into().unwrap())
}

// Place p of every inner word, the first of eight bytes the lowest: no byte has to move.
pub(crate) fn load(bytes: &[u8], p: usize) -> u64
    requires { 8 * p + 8 ≤ length bytes.now }
    ensures { result ≡ loaded_at bytes.now p }
{
    let i = Interleaved::PLACE_BYTES * p;
    u64::from_le_bytes(bytes[i..i + Interleaved::PLACE_BYTES].try_into().unwrap())
}

// The number has inner word k: its bit k, the highest first, is 1.
pub(crate) fn has(words: u64, k: usize) -> bool
    requires { k < 64 }
    ensures { cond result 1 0 ≡ bit_of 64 words k }
{
    (words >> (Interleaved::WORDS - 1 - k)) & 1 == 1
}

// Writes place p of every inner word.
pub(crate) fn put_place(block: &mut [u8; Interleaved::BYTES], p: usize, x: u64)
    requires { p < 2040 }
    ensures { Placed (8 * p) (tabulate 8 (byte_of64 x)) block.old block.new }
{
    let i = Interleaved::PLACE_BYTES * p;
    block[i..i + Interleaved::PLACE_BYTES].copy_from_slice(&x.to_be_bytes());
}

// Writes where two blocks differ, for eight places from place p on, the first of eight bytes the lowest.
pub fn differences(block: &[u8], frame: &[u8], p: usize, out: &mut [u64])
    requires { (length block.now ≡ 16320) × (length frame.now ≡ 16320) × (p + 8 ≤ 2040) × (length out.old ≡ 8) }
    ensures { out.new ≡ tabulate 8 (difference_from block.now frame.now p) }
{
    for (q, place) in out.iter_mut().enumerate() {
        *place = load(block, p + q) ^ load(frame, p + q);
    }
}
