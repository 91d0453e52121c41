// The parity places of the inner words from their residues: for each parity place the matrix has 88 bits, which pick the numbers whose sum it is. The sums of
// each four numbers are made first, so that four bits cost one read.
ghost use Rattle.std.specs.Prelude.{◌≡◌, [], ◌∷◌, ◌<◌};
ghost use Rattle.fields.specs.Lists.{tabulate};
ghost use Rattle.inner_words.specs.Steps.ParityMatrix.{parity_matrix, four_sum, four_sums, parity_sum, parity_sums};

use crate::parity_matrix;
use words::Inner;

// Groups of four numbers, and the sums of one group.
const FOURS: usize = Inner::PARITY / 4;

const SUMS: usize = 16;

// Bytes of the bits that pick the numbers of one parity place.
const PICK_BYTES: usize = Inner::PARITY / 8;

// The matrix, which stands in the program once.
fn matrix() -> &'static [u8; Inner::PARITY * PICK_BYTES]
    ensures { result.now ≡ parity_matrix }
{
    &parity_matrix::PARITY_MATRIX
}

// The sum of no number, of the last, of the last but one, and so on: the bits of the place in the list say which.
fn sums_of(a: u64, b: u64, c: u64, d: u64) -> [u64; SUMS]
    ensures { result ≡ tabulate 16 (four_sum (a ∷ b ∷ c ∷ d ∷ []) 0) }
{
    [
        0,
        d,
        c,
        c ^ d,
        b,
        b ^ d,
        b ^ c,
        b ^ c ^ d,
        a,
        a ^ d,
        a ^ c,
        a ^ c ^ d,
        a ^ b,
        a ^ b ^ d,
        a ^ b ^ c,
        a ^ b ^ c ^ d,
    ]
}

// The sums of each four numbers.
fn four_sums(numbers: &[u64; Inner::PARITY]) -> [u64; FOURS * SUMS]
    ensures { result ≡ four_sums numbers.now }
{
    let mut out = [0; FOURS * SUMS];
    for g in 0..FOURS {
        let i = 4 * g;
        let sums = sums_of(numbers[i], numbers[i + 1], numbers[i + 2], numbers[i + 3]);
        out[SUMS * g..SUMS * (g + 1)].copy_from_slice(&sums);
    }
    out
}

// Parity place q: the sum of the numbers that its bits pick, those of the first four bits of a byte, and of the other four.
fn parity_sum(
    sums: &[u64; FOURS * SUMS],
    matrix: &[u8; Inner::PARITY * PICK_BYTES],
    q: usize,
) -> u64
    requires { q < 88 }
    ensures { result ≡ parity_sum sums.now matrix.now q }
{
    let mut x = 0;
    for m in 0..PICK_BYTES {
        let byte = usize::from(matrix[PICK_BYTES * q + m]);
        let i = 2 * SUMS * m;
        x = x ^ sums[i + byte / SUMS] ^ sums[i + SUMS + byte % SUMS];
    }
    x
}

// The parity places, from the residues of the data places.
pub(crate) fn from_residues(residues: &[u64; Inner::PARITY]) -> [u64; Inner::PARITY]
    ensures { result ≡ parity_sums residues.now }
{
    let sums = four_sums(residues);
    let matrix = matrix();
    let mut out = [0; Inner::PARITY];
    for (q, place) in out.iter_mut().enumerate() {
        *place = parity_sum(&sums, matrix, q);
    }
    out
}
