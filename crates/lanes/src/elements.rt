// Elements of field B of all 64 inner words at once: an operation on the numbers is, for each inner word k, the field's operation on its elements.
ghost use Rattle.std.specs.Prelude.{◌≡◌, cond, ℕ, min, eqb};
ghost use Rattle.fields.specs.Elements.{xor, scale, doubled, times_b};
ghost use Rattle.lanes.specs.Steps.Sliced.{lane_bit, element};

use crate::{DEGREE, Lanes};

impl Lanes {
    pub(crate) const ZERO: Lanes = Lanes([0; DEGREE]);

    // The element 0 or 1 of each inner word, by its bit of x.
    pub(crate) fn bit(x: u64) -> Lanes {
        Lanes([x, 0, 0, 0, 0, 0, 0, 0, 0, 0, 0])
    }

    // The sum of two elements.
    pub(crate) fn plus(mut self, y: Lanes) -> Lanes
        ensures { (k : ℕ) → element k result ≡ xor (element k self) (element k y) }
    {
        for (i, x) in self.0.iter_mut().enumerate() {
            *x ^= y.0[i];
        }
        self
    }

    // The element in the inner words of the mask, 0 in the others.
    fn masked(mut self, mask: u64) -> Lanes
        ensures { (k : ℕ) → element k result ≡ scale (lane_bit k mask) (element k self) }
    {
        for x in &mut self.0 {
            *x &= mask;
        }
        self
    }

    // The inner words in which the element is not zero.
    pub(crate) fn nonzero(self) -> u64
        ensures { (k : ℕ) → lane_bit k result ≡ min (element k self) 1 }
    {
        self.0.iter().fold(0, |all, x| all | *x)
    }

    // a times the element: z^11 is z^2 + 1.
    pub(crate) fn doubled(self) -> Lanes
        ensures { (k : ℕ) → element k result ≡ doubled 11 2053 (element k self) }
    {
        let [x0, x1, x2, x3, x4, x5, x6, x7, x8, x9, x10] = self.0;
        Lanes([x10, x0, x1 ^ x10, x2, x3, x4, x5, x6, x7, x8, x9])
    }

    // a^n times the element.
    pub(crate) fn times_power(mut self, n: usize) -> Lanes {
        for _ in 0..n {
            self = self.doubled();
        }
        self
    }

    // The product of two elements, by the bits of the second, the highest first.
    fn product(self, y: Lanes) -> Lanes
        ensures { (k : ℕ) → element k result ≡ times_b (element k self) (element k y) }
    {
        let mut p = Lanes::ZERO;
        for i in (0..DEGREE).rev() {
            p = p.doubled().plus(self.masked(y.0[i]));
        }
        p
    }

    // The product of a coefficient, which often is zero in every inner word: then nothing is multiplied.
    pub(crate) fn sparse_product(self, y: Lanes) -> Lanes
        ensures { (k : ℕ) → element k result ≡ times_b (element k self) (element k y) }
    {
        if self.nonzero() == 0 {
            self
        } else {
            self.product(y)
        }
    }

    // The square, which is additive: z^12, z^14, .. z^20 are z^3 + z, z^5 + z^3, z^7 + z^5, z^9 + z^7, z^9 + z^2 + 1.
    pub(crate) fn square(self) -> Lanes
        ensures { (k : ℕ) → element k result ≡ times_b (element k self) (element k self) }
    {
        let [x0, x1, x2, x3, x4, x5, x6, x7, x8, x9, x10] = self.0;
        Lanes([
            x0 ^ x10,
            x6,
            x1 ^ x10,
            x6 ^ x7,
            x2,
            x7 ^ x8,
            x3,
            x8 ^ x9,
            x4,
            x9 ^ x10,
            x5,
        ])
    }

    // x in the inner words of the mask, y in the others.
    pub(crate) fn chosen(mask: u64, x: Lanes, y: Lanes) -> Lanes
        ensures { (k : ℕ) → element k result ≡ cond (eqb (lane_bit k mask) 1) (element k x) (element k y) }
    {
        y.plus(x.plus(y).masked(mask))
    }
}
