// The residues of the inner words modulo one factor of the divisor: a step by one place, and the walk over all places. The factor is a const parameter, so that
// each has a step of its own, in which its coefficients are known.
ghost use Rattle.std.specs.Prelude.{◌≡◌, ℕ, ◌+◌, ◌*◌, ◌≤◌, ◌<◌};
ghost use Rattle.fields.specs.Elements.{scale};
ghost use Rattle.fields.specs.Places.{at};
ghost use Rattle.lanes.specs.Steps.Sliced.{cells};
ghost use Rattle.words.specs.InnerCode.{factors};
ghost use Rattle.inner_words.specs.Steps.InnerResidues.{coefficient, loaded_at, advanced, residue_of};

use crate::Interleaved;
use crate::places::load;
use lanes::{DEGREE, FIRST_PLACES, Lanes};

// f, if the factor has a coefficient at z^i; else 0.
fn taken<const FACTOR: u64>(i: u32, f: u64) -> u64
    requires { i < 64 }
    ensures { result ≡ scale (coefficient i FACTOR) f }
{
    if (FACTOR >> i) & 1 == 1 { f } else { 0 }
}

// One place more, modulo the factor: z times the residue, plus the place.
fn step<const FACTOR: u64>(bytes: &[u8; Interleaved::BYTES], p: usize, s: Lanes) -> Lanes
    requires { p < 2040 }
    ensures { cells result ≡ advanced FACTOR (cells s) (loaded_at bytes.now p) }
{
    let x = load(bytes, p);
    let [r0, r1, r2, r3, r4, r5, r6, r7, r8, r9, f] = s.0;
    Lanes([
        taken::<FACTOR>(0, f) ^ x,
        taken::<FACTOR>(1, f) ^ r0,
        taken::<FACTOR>(2, f) ^ r1,
        taken::<FACTOR>(3, f) ^ r2,
        taken::<FACTOR>(4, f) ^ r3,
        taken::<FACTOR>(5, f) ^ r4,
        taken::<FACTOR>(6, f) ^ r5,
        taken::<FACTOR>(7, f) ^ r6,
        taken::<FACTOR>(8, f) ^ r7,
        taken::<FACTOR>(9, f) ^ r8,
        taken::<FACTOR>(10, f) ^ r9,
    ])
}

// The residues modulo the factor of the first 5 + 11 * blocks places. After eleven places each coefficient is back where it stood, so that none has to move.
pub(crate) fn residue<const FACTOR: u64>(
    bytes: &[u8; Interleaved::BYTES],
    blocks: usize,
) -> [u64; DEGREE]
    requires { blocks ≤ 185 }
    ensures { (j : ℕ) → at factors j ≡ FACTOR → result ≡ residue_of j bytes.now (5 + 11 * blocks) }
{
    let mut s = Lanes([0; DEGREE]);
    for p in 0..FIRST_PLACES {
        s = step::<FACTOR>(bytes, p, s);
    }
    for i in 0..blocks {
        for k in 0..DEGREE {
            s = step::<FACTOR>(bytes, FIRST_PLACES + DEGREE * i + k, s);
        }
    }
    s.0
}
