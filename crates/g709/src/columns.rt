// Bytes as elements of field C, and columns of sixteen of them, one for each word of a row: byte k of each column is lane k. What is done with a column is the same for all
// words, so that it becomes operations on vectors of sixteen bytes.
ghost use Rattle.std.specs.Prelude.{◌≡◌, ◌%◌, ◌<◌};
ghost use Rattle.fields.specs.Elements.{scale, doubled, times_c};
ghost use Rattle.g709.specs.Steps.Restoring.{lane_of};

// Words in a row.
pub(crate) const WORDS: usize = 16;

// Bytes of sixteen columns, such as a row's parity; and of one more, of zeros.
pub(crate) const PARITY: usize = 16 * WORDS;

pub(crate) const CELLS: usize = 17 * WORDS;

fn double(x: u8) -> u8
    ensures { result ≡ doubled 8 285 x }
{
    (x << 1) ^ (29 * (x >> 7))
}

// x where y is odd.
fn part(x: u8, y: u8) -> u8
    ensures { result ≡ scale (y % 2) x }
{
    if y % 2 < 1 { 0 } else { x }
}

pub(crate) fn product(x: u8, y: u8) -> u8
    ensures { result ≡ times_c x y }
{
    let mut a = x;
    let mut b = y;
    let mut r = 0;
    for _i in 0..8_u8 {
        r ^= part(a, b);
        a = double(a);
        b /= 2;
    }
    r
}

// What sixteen columns hold of word k.
pub(crate) fn lane(columns: &[u8; CELLS], k: usize) -> [u16; WORDS]
    requires { k < 16 }
    ensures { result ≡ lane_of columns.now k }
{
    let mut cells = [0; WORDS];
    for i in 0..WORDS {
        cells[i] = u16::from(columns[WORDS * i + k]);
    }
    cells
}
