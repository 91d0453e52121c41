// How many of some numbers have a 1 for inner word k, counted for all 64 words at once and without a branch (Harley and Seal). Counts are held in planes: the
// bits of inner word k in the planes of weight 1, 2, 4, .. are the binary digits of its count. Full adders make of eight numbers and the planes of weight 1, 2
// and 4 these planes anew and one carry of weight 8. The carries are numbers again, an eighth as many, and are counted in the same way.
//
// The numbers are as they are loaded, the first of eight bytes the lowest: no byte has to move.
ghost use Rattle.std.specs.Prelude.{◌≡◌, ℕ, ◌+◌, ◌*◌, ◌/◌, ◌≤◌, ◌<◌, length};
ghost use Rattle.fields.specs.Places.{at};
ghost use Rattle.lanes.specs.Steps.Sliced.{lane_bit};
ghost use Rattle.lanes.specs.Steps.Counters.{EightMore, Carried, plane_added, plane_counts, carried_counts};

// Inner words, and so the bits of a number.
const WORDS: usize = 64;

// Numbers that are added at once.
pub const STEP: usize = 8;

// Carries of weight 8, of 2,048 numbers, and those of weight 64 that they give.
pub const EIGHTS: usize = 256;

const SIXTY_FOURS: usize = EIGHTS / STEP;

// Planes of all weights: the largest is 2,048.
const PLANES: usize = 12;

// For each inner word the sum of three bits, as a binary number of two digits, the lower first.
fn full_adder(a: u64, b: u64, c: u64) -> (u64, u64)
    ensures { (k : ℕ) → lane_bit k a + lane_bit k b + lane_bit k c ≡ lane_bit k result.0 + 2 * lane_bit k result.1 }
{
    (a ^ b ^ c, (a & b) | (c & (a ^ b)))
}

// The planes of weight 1, 2 and 4, and the carry of weight 8 of the last step.
#[derive(Clone, Copy, Default)]
pub struct Planes {
    pub ones: u64,
    pub twos: u64,
    pub fours: u64,
    pub carry: u64,
}

// Eight numbers more: the first of those given.
pub fn eight_more(s: Planes, xs: &[u64]) -> Planes
    requires { 8 ≤ length xs.now }
    ensures { EightMore (at xs.now) 0 s result }
{
    let (ones, a) = full_adder(s.ones, xs[0], xs[1]);
    let (ones, b) = full_adder(ones, xs[2], xs[3]);
    let (ones, c) = full_adder(ones, xs[4], xs[5]);
    let (ones, d) = full_adder(ones, xs[6], xs[7]);
    let (twos, a) = full_adder(s.twos, a, b);
    let (twos, b) = full_adder(twos, c, d);
    let (fours, carry) = full_adder(s.fours, a, b);
    Planes {
        ones,
        twos,
        fours,
        carry,
    }
}

// Counts numbers, eight by eight: the planes, and the carries.
fn count<const CARRIES: usize>(xs: &[u64]) -> (Planes, [u64; CARRIES])
    requires { length xs.now / 8 ≤ CARRIES }
    ensures { Carried (at xs.now) (length xs.now / 8) result.0 result.1 }
{
    let mut s = Planes::default();
    let mut carries = [0; CARRIES];
    for i in 0..xs.len() / STEP {
        s = eight_more(s, &xs[STEP * i..]);
        carries[i] = s.carry;
    }
    (s, carries)
}

// Adds a plane to the counts, which are put in the order of the inner words. Most planes are 0.
fn add_plane(counts: &mut [u16; WORDS], x: u64, weight: u16)
    requires { (weight ≤ 2048) × ((k : ℕ) → at counts.old k < weight) }
    ensures { counts.new ≡ plane_added counts.old x weight }
{
    if x == 0 {
        return;
    }
    for (k, count) in counts.iter_mut().enumerate() {
        *count += ((x >> (8 * (k / 8) + 7 - k % 8)) & 1) as u16 * weight;
    }
}

// The counts that the planes of all weights are.
fn numbers(planes: &[u64; PLANES]) -> [u16; WORDS]
    ensures { result ≡ plane_counts planes.now }
{
    let mut counts = [0u16; WORDS];
    for (i, plane) in planes.iter().enumerate() {
        add_plane(&mut counts, *plane, 1 << i);
    }
    counts
}

// The counts of all numbers: from the planes of weight 1, 2 and 4, and n times eight carries of weight 8.
pub fn counts(low: Planes, eights: &[u64; EIGHTS], n: usize) -> [u16; WORDS]
    requires { n ≤ 32 }
    ensures { result ≡ carried_counts low eights.now n }
{
    let (a, sixty_fours) = count::<SIXTY_FOURS>(&eights[..STEP * n]);
    // Four carries of weight 512, with zeros to a whole step. They give none.
    let (b, last) = count::<STEP>(&sixty_fours);
    let (c, _) = count::<1>(&last);
    numbers(&[
        low.ones, low.twos, low.fours, a.ones, a.twos, a.fours, b.ones, b.twos, b.fours, c.ones,
        c.twos, c.fours,
    ])
}
