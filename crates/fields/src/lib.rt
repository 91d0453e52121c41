// Binary fields by tables: powers, products and inverses in the field of 2^m elements, for the crates above.
//
// A field is one value, a `BinaryField`: its two tables, so that one text serves every field. An operand stands for the element that its low m bits are, so that every u16 is
// answered; tables of any other content and length are answered too, as `by_table` and `by_tables` say, and never read out of range.
//
// field_a, field_b and field_c hand out tables that are never written and stand in the program once: a `BinaryField` is copied as two references.
#![tactic(auto)]

ghost use Rattle.std.specs.Prelude.{◌≡◌, ℕ, ◌-◌, ◌%◌, ◌^◌, ◌<◌, length, get_or};
ghost use Rattle.fields.specs.Elements.{times, power, inverse, powers, powers_a, exponents_a, powers_b, exponents_b, powers_c, exponents_c};
ghost use Rattle.fields.specs.Field.{Field};
ghost use Rattle.fields.specs.Steps.ByTables.{place_in, wrapped, power_near, table_power, table_product, table_inverse, FieldTables};

mod tables;

// A field, by its tables.
#[derive(Clone, Copy)]
pub struct BinaryField<'a> {
    // The powers of the element 2: exp[i] is 2 to the i-th, for the 2^m - 1 exponents i.
    pub exp: &'a [u16],

    // The exponents, the inverse of exp: log[x] is the i with exp[i] = x, for the 2^m elements x but 0.
    pub log: &'a [u16],
}

// Field A: 1,024 elements, from z^10 + z^3 + 1.
pub fn field_a() -> BinaryField<'static>
    ensures exp { result.exp.now ≡ powers_a }
    ensures log { result.log.now ≡ exponents_a }
{
    BinaryField {
        exp: &tables::exp_a::EXP_A,
        log: &tables::log_a::LOG_A,
    }
}

// Field B: 2,048 elements, from z^11 + z^2 + 1.
pub fn field_b() -> BinaryField<'static>
    ensures exp { result.exp.now ≡ powers_b }
    ensures log { result.log.now ≡ exponents_b }
{
    BinaryField {
        exp: &tables::exp_b::EXP_B,
        log: &tables::log_b::LOG_B,
    }
}

// Field C: 256 elements, from z^8 + z^4 + z^3 + z^2 + 1.
pub fn field_c() -> BinaryField<'static>
    ensures exp { result.exp.now ≡ powers_c }
    ensures log { result.log.now ≡ exponents_c }
{
    BinaryField {
        exp: &tables::exp_c::EXP_C,
        log: &tables::log_c::LOG_C,
    }
}

impl BinaryField<'_> {
    // 2 to the i-th.
    pub fn power(self, i: u16) -> u16
        ensures by_table { result ≡ table_power self.entry.exp.now i }
        ensures in_field { (m p : ℕ) → Field m p → self.entry.exp.now ≡ powers m p → result ≡ power m p i }
    {
        let n = self.exp.len();
        if n == 0 {
            return 0;
        }
        self.exp[reduced(usize::from(i), n)]
    }

    // x times y.
    pub fn product(self, x: u16, y: u16) -> u16
        ensures by_tables { result ≡ table_product self.entry.exp.now self.entry.log.now x y }
        ensures in_field { (m p : ℕ) → FieldTables m p self.entry.exp.now self.entry.log.now → result ≡ times m p (x % 2 ^ m) (y % 2 ^ m) }
    {
        let n = self.log.len();
        if n == 0 {
            return 0;
        }
        let a = place(n, x);
        if a == 0 {
            return 0;
        }
        let b = place(n, y);
        if b == 0 {
            return 0;
        }
        let i = usize::from(self.log[a]);
        let j = usize::from(self.log[b]);
        power_near(self.exp, i + j)
    }

    // One over x, and 0 for 0.
    pub fn inverse(self, x: u16) -> u16
        ensures by_tables { result ≡ table_inverse self.entry.exp.now self.entry.log.now x }
        ensures in_field { (m p : ℕ) → FieldTables m p self.entry.exp.now self.entry.log.now → result ≡ inverse m p (x % 2 ^ m) }
    {
        let n = self.log.len();
        if n == 0 {
            return 0;
        }
        let a = place(n, x);
        if a == 0 {
            return 0;
        }
        let i = usize::from(self.log[a]);
        power_near(self.exp, self.exp.len().saturating_sub(i))
    }
}

// The place of x in a table of n entries: its low bits.
fn place(n: usize, x: u16) -> usize
    requires { 0 < n }
    ensures { (result ≡ place_in n x) × (result < n) }
{
    usize::from(x) & (n - 1)
}

// i, less n where it is not below n: a sum of two exponents, which is below twice n, comes below n by one comparison and one subtraction.
pub fn wrapped(i: usize, n: usize) -> usize
    ensures { result ≡ wrapped n i }
{
    if i < n { i } else { i - n }
}

// The power whose exponent is i, below twice the table's length; 0 from there on.
fn power_near(exp: &[u16], i: usize) -> u16
    ensures { result ≡ power_near exp.now i }
{
    exp.get(wrapped(i, exp.len())).copied().unwrap_or(0)
}

// i modulo n, by subtractions.
fn reduced(i: usize, n: usize) -> usize
    requires { 0 < n }
    ensures { (result ≡ i % n) × (result < n) }
{
    let mut k = i;
    while n <= k {
        k -= n;
    }
    k
}
