// Logging of corrections, for a user of the corrector who knows its report and its contract, and nothing inside it.
//
//     counters     what the corrector's answers add up to: cleared at the start, then counted once an answer
//     worst list   the first inner word in the order of the list, then the first of the others, up to eight
#![tactic(auto)]

ghost use Rattle.std.specs.Prelude.{◌≡◌, ◌<◌, IfSome, unwrap_or};
ghost use Rattle.logging.specs.Counting.{cleared, counted};
ghost use Rattle.logging.specs.WorstList.{count_of, data_of, is_before, is_open, first_open, worst_words};

use frames::{Frame, Report};

// What the corrector's answers since the last clearing add up to ("tally"). Each number stops at the largest that it can be.
#[derive(Clone, Copy, Default, PartialEq, Eq)]
pub struct Counters {
    // Frames taken.
    pub frames: u32,

    // Uncorrectable blocks.
    pub uncorrectable: u32,

    // Bits corrected.
    pub bits: u32,
}

impl Counters {
    // The refusal that is counted: uncorrectable.
    const UNCORRECTABLE: u8 = 5;

    #[tactic(auto, unfolding(crate::specs::Counting::cleared))]
    pub fn cleared() -> Self
        ensures { result ≡ cleared }
    {
        Counters::default()
    }

    // The counters after one more answer.
    #[tactic(auto, unfolding(crate::specs::Counting::counted, crate::specs::Counting::frames_of, crate::specs::Counting::uncorrectable_of, crate::specs::Counting::corrected_bits_of))]
    pub fn counted(self, report: Report) -> Self
        ensures { result ≡ counted self report }
    {
        match report.refusal {
            0 => Counters {
                frames: self.frames.saturating_add(1),
                bits: self.bits.saturating_add(report.sum),
                ..self
            },
            Counters::UNCORRECTABLE => Counters {
                uncorrectable: self.uncorrectable.saturating_add(1),
                ..self
            },
            _ => self,
        }
    }
}

// Places of the worst list, and what an empty one holds.
pub const LISTED: usize = 8;

pub const EMPTY: usize = Frame::INNER_WORDS;

// What the order of the list goes by: the first field decides, and among equals the next one. The larger rank stands first.
#[derive(Clone, Copy, PartialEq, Eq, PartialOrd, Ord)]
struct Rank {
    // Changes at data places and at parity places together.
    count: u32,

    // Changes at data places alone.
    in_data: u16,

    // The number of the inner word.
    number: usize,
}

impl Rank {
    #[tactic(auto, unfolding(crate::specs::WorstList::count_of, crate::specs::WorstList::count_in))]
    fn of(report: &Report, k: usize) -> Self
        requires { k < 64 }
        ensures count { result.count ≡ count_of (report.now.data, report.now.parity) k }
        ensures in_data { result.in_data ≡ data_of (report.now.data, report.now.parity) k }
        ensures number { result.number ≡ k }
    {
        Rank {
            count: u32::from(report.data[k]) + u32::from(report.parity[k]),
            in_data: report.data[k],
            number: k,
        }
    }
}

// The order of the list: inner word j stands before inner word k if its count is larger; or equal, and that of its data places larger; or both equal, and its
// number higher.
fn is_before(report: &Report, j: usize, k: usize) -> bool
    requires j_in { j < 64 }
    requires k_in { k < 64 }
    ensures { result ≡ is_before (report.now.data, report.now.parity) j k }
{
    Rank::of(report, j) > Rank::of(report, k)
}

// Inner word k can be listed next: its count is above 0, and it is not listed yet.
#[tactic(auto, unfolding(crate::specs::WorstList::is_open))]
fn is_open(report: &Report, listed: &[bool; Frame::INNER_WORDS], k: usize) -> bool
    requires { k < 64 }
    ensures { result ≡ is_open (report.now.data, report.now.parity) listed.now k }
{
    Rank::of(report, k).count > 0 && !listed[k]
}

// The first in the order of the inner words that can be listed.
fn first_open(report: &Report, listed: &[bool; Frame::INNER_WORDS]) -> Option<usize>
    ensures word { IfSome result (λ k. k < 64) }
    ensures first { unwrap_or result 64 ≡ first_open (report.now.data, report.now.parity) listed.now 64 }
{
    let mut first = None;
    for k in 0..Frame::INNER_WORDS {
        if is_open(report, listed, k) && first.is_none_or(|j| is_before(report, k, j)) {
            first = Some(k);
        }
    }
    first
}

// The inner words of a report with a count above 0, the first eight in the order of the list ("worst list"); empty places hold 64.
pub fn worst_words(report: Report) -> [u8; LISTED]
    ensures { result ≡ worst_words (report.«data», report.parity) }
{
    let mut listed = [false; Frame::INNER_WORDS];
    let mut list = [EMPTY as u8; LISTED];
    for place in &mut list {
        let Some(k) = first_open(&report, &listed) else {
            break;
        };
        *place = k as u8;
        listed[k] = true;
    }
    list
}
