// Exponents of a, counted modulo its order n, by one comparison and one subtraction.
ghost use Rattle.std.specs.Prelude.{◌≡◌, ◌+◌, ◌%◌, ◌≤◌, ◌<◌};
ghost use Rattle.fields.specs.Places.{at};
ghost use Rattle.decoding.specs.Steps.RootSearch.{less_modulo};

use crate::symbols;
use fields::BinaryField;

// The exponent of x: a to that power is x, if x is not zero.
pub(crate) fn exponent(field: BinaryField, x: u16) -> usize
    ensures { result ≡ at field.entry.log.now x }
{
    usize::from(symbols::symbol(field.log, usize::from(x)))
}

// e - d, counted modulo n.
pub(crate) fn less(n: usize, e: usize, d: usize) -> usize
    requires { (e < n) × (d < n) }
    ensures { result ≡ less_modulo n e d }
{
    if e < d { e + (n - d) } else { e - d }
}

// e + d, counted modulo n.
pub(crate) fn plus(n: usize, e: usize, d: usize) -> usize
    requires { (e < n) × (d < n) × (n ≤ 65536) }
    ensures { result ≡ (e + d) % n }
{
    fields::wrapped(e + d, n)
}
