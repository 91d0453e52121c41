// Syndromes of all inner words, and by them the locator polynomials: Berlekamp and Massey's algorithm, without division, in the form for binary codes, which
// takes eight steps.
ghost use Rattle.std.specs.Prelude.{◌<◌};

use crate::{ALL, DEGREE, Lanes, RESIDUES};
use decoding::{COEFFICIENTS, RADIUS, SYNDROMES};

// The syndrome of a^e: the value at a^e of the residue modulo its least polynomial; Horner's rule.
fn odd_syndrome(residue: &[u64], e: usize) -> Lanes {
    let mut v = Lanes::ZERO;
    for x in residue.iter().rev() {
        v = v.times_power(e).plus(Lanes::bit(*x));
    }
    v
}

// The sixteen syndromes, of a, a^2, .. a^16. The j-th factor is the least polynomial of a^(2 j + 1).
pub(crate) fn syndromes(residues: &[u64; RESIDUES]) -> [Lanes; SYNDROMES] {
    let mut syndromes = [Lanes::ZERO; SYNDROMES];
    for (j, residue) in residues.chunks_exact(DEGREE).enumerate() {
        syndromes[2 * j] = odd_syndrome(residue, 2 * j + 1);
        syndromes[2 * j + 1] = syndromes[j].square();
    }
    syndromes
}

// The coefficients of a locator polynomial, the lowest first. It has degree eight at most.
pub(crate) type Polynomial = [Lanes; COEFFICIENTS];

// The next syndrome that a locator polynomial would give differs by this from the last of those given: the sum of its coefficients times these syndromes, the
// last one first.
fn discrepancy(locator: &Polynomial, syndromes: &[Lanes]) -> Lanes {
    let mut d = Lanes::ZERO;
    for (x, y) in locator.iter().zip(syndromes.iter().rev()) {
        d = d.plus(x.sparse_product(*y));
    }
    d
}

// The locator polynomial times g, plus d times the other.
fn combine(locator: &mut Polynomial, g: Lanes, other: &Polynomial, d: Lanes) {
    for (x, y) in locator.iter_mut().zip(other) {
        *x = x.sparse_product(g).plus(y.sparse_product(d));
    }
}

// The polynomial becomes the one given in the inner words of the mask; then it is multiplied by x^2, without the terms of too high a degree.
fn follow(other: &mut Polynomial, mask: u64, locator: &Polynomial) {
    for i in (0..RADIUS - 1).rev() {
        other[i + 2] = Lanes::chosen(mask, locator[i], other[i]);
    }
    other[0] = Lanes::ZERO;
    other[1] = Lanes::ZERO;
}

// Number j has the inner words in which the shortest recurrence of the syndromes so far has at least length j.
#[derive(Clone, Copy)]
struct Lengths([u64; COEFFICIENTS + 1]);

impl Lengths {
    // The inner words in which a length that becomes n less itself is at least j then.
    fn reflected(self, n: usize, j: usize) -> u64
        requires { n < 18 }
    {
        match self.0.get((n + 1).saturating_sub(j)) {
            Some(longer) => !longer,
            None => ALL,
        }
    }

    // A length becomes n less itself in the inner words of the mask.
    fn lengthened(self, n: usize, mask: u64) -> Self
        requires { n < 18 }
    {
        let mut lengths = self;
        for j in 1..=COEFFICIENTS {
            lengths.0[j] = (self.reflected(n, j) & mask) | (self.0[j] & !mask);
        }
        lengths
    }
}

// What the steps go through: the locator polynomials, what they were before the length last grew, moved up, the discrepancy at which it grew, and the lengths.
#[derive(Drop)]
struct Recurrences {
    locator: Polynomial,
    other: Polynomial,
    factor: Lanes,
    lengths: Lengths,
}

impl Recurrences {
    fn new() -> Self {
        let one = Lanes::bit(ALL);
        let mut locator = [Lanes::ZERO; COEFFICIENTS];
        let mut other = [Lanes::ZERO; COEFFICIENTS];
        let mut lengths = [0; COEFFICIENTS + 1];
        locator[0] = one;
        other[1] = one;
        lengths[0] = ALL;
        Recurrences {
            locator,
            other,
            factor: one,
            lengths: Lengths(lengths),
        }
    }

    // Berlekamp-Massey step r: a locator polynomial with a discrepancy d is multiplied by the factor, and d times the other polynomial is added. Where the length
    // grows, the locator polynomial from before is the other one for the next steps.
    fn step(&mut self, r: usize, syndromes: &[Lanes; SYNDROMES])
        requires { r < 8 }
    {
        let d = discrepancy(&self.locator, &syndromes[..2 * r + 1]);
        let wrong = d.nonzero();
        if wrong == 0 {
            follow(&mut self.other, 0, &self.locator);
            return;
        }
        let grows = wrong & !self.lengths.0[r + 1];
        let before = self.locator;
        combine(&mut self.locator, self.factor, &self.other, d);
        follow(&mut self.other, grows, &before);
        self.factor = Lanes::chosen(grows, d, self.factor);
        self.lengths = self.lengths.lengthened(2 * r + 1, grows);
    }
}

// The locator polynomials. Their roots are the inverses of the locators.
pub(crate) fn locators(syndromes: &[Lanes; SYNDROMES]) -> Polynomial {
    let mut recurrence = Recurrences::new();
    for r in 0..RADIUS {
        recurrence.step(r, syndromes);
    }
    recurrence.locator
}

// The largest degree of the locator polynomials.
pub(crate) fn degree(locator: &Polynomial) -> usize {
    locator.iter().rposition(|x| x.nonzero() != 0).unwrap_or(0)
}
