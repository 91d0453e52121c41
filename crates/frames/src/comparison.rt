// The report of a correction: in how many data places and in how many parity places of each inner word the received block and the restored frame differ, and
// the sum.
ghost use Rattle.std.specs.Prelude.{◌≡◌, ◌-◌, ◌%◌, ◌≤◌, length};
ghost use Rattle.frames.specs.Correction.{counts_between, total};

use crate::Frame;
use inner_words::places;
use lanes::counters;
use lanes::counters::Planes;

// The places of each inner word in which the two blocks differ, from one place on and before another. Eight places are counted at once.
pub(crate) fn counts(
    block: &[u8; Frame::BYTES],
    frame: &[u8; Frame::BYTES],
    from: usize,
    to: usize,
) -> [u16; Frame::INNER_WORDS]
    requires { (from ≤ to) × (to ≤ 2040) × ((to - from) % 8 ≡ 0) }
    ensures { result ≡ counts_between from to block.now frame.now }
{
    let n = (to - from) / counters::STEP;
    let mut planes = Planes::default();
    let mut carries = [0u64; counters::EIGHTS];
    let mut differences = [0u64; counters::STEP];
    for i in 0..n {
        places::differences(block, frame, from + counters::STEP * i, &mut differences);
        planes = counters::eight_more(planes, &differences);
        carries[i] = planes.carry;
    }
    counters::counts(planes, &carries, (n + counters::STEP - 1) / counters::STEP)
}

// The sum of counts: each is at most 65,535.
pub(crate) fn sum(counts: &[u16]) -> u32
    requires { length counts.now ≤ 64 }
    ensures { (result ≡ total counts.now) × (result ≤ 4194240) }
{
    counts.iter().map(|&n| u32::from(n)).sum()
}
