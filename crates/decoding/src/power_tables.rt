// The search for roots by tables of powers, for a caller with many words to decode, who lends the tables from word to word: table d has the powers of 1 / a^d one after
// the other, so that the values of a term at neighbouring places are neighbours there, and the values of a polynomial at 40 places are eight runs of entries added.
ghost use Rattle.std.specs.Prelude.{◌≡◌, false, List, ℕ, ◌+◌, ◌-◌, ◌*◌, ◌%◌, ◌≤◌, ◌<◌, length};
ghost use Rattle.fields.specs.Lists.{tabulate};
ghost use Rattle.fields.specs.Elements.{powers_b};
ghost use Rattle.fields.specs.Places.{at};
ghost use Rattle.decoding.specs.Steps.Decoder.{Tables};
ghost use Rattle.decoding.specs.Steps.RootSearch.{Roots};
ghost use Rattle.decoding.specs.Steps.PowerTables.{PowerTables, TableFilled, block_sum, with_sums, table_base, table_start, table_bases, table_starts, bases_of, starts_of, Inside, four_at, AllInside, sum_from, tables_sum, kept_to, TablesFor};

use crate::annihilator::leading_zeros;
use crate::exponents::{exponent, less, plus};
use crate::root_search::{Places, keep, roots};
use crate::{COEFFICIENTS, RADIUS, symbols};
use fields::BinaryField;

// The order of a in the field that the tables of powers serve, the largest number of eleven bits; and the number of places that are tested at once.
const EXPONENT_BITS: usize = 11;

const ORDER: usize = (1 << EXPONENT_BITS) - 1;

const BLOCK: usize = 40;

// A table has its start again behind its end: a block may start at any of its entries.
const TABLE_ENTRIES: usize = ORDER + BLOCK;

// Tables of powers as `PowerTables` says, lent by the caller: table d has from its entry TABLE_ENTRIES * d on the powers of 1 / a^d, table 0 has zeros. The last entry of all
// says how many there are; a table is filled when it is first needed.
pub const ENTRIES: usize = COEFFICIENTS * TABLE_ENTRIES + 1;

// 1 / d modulo ORDER.
const RECIPROCALS: [usize; COEFFICIENTS] = [0, 1, 1024, 1365, 512, 819, 1706, 585, 256];

// No table is there yet.
pub fn empty_tables(tables: &mut [u16])
    requires { length tables.old ≡ 18784 }
    ensures { (es : List ℕ) → PowerTables es tables.new }
{
    tables[..TABLE_ENTRIES].fill(0);
    tables[ENTRIES - 1] = 0;
}

// An entry of table d is the sum of the entries NEAR and FAR before it: the powers x^m of x = 1 / a^d have x^FAR = x^(FAR - NEAR) + 1. Two blocks fit
// between, so that none waits for the one just stored.
const NEAR: [usize; COEFFICIENTS] = [135, 135, 135, 90, 135, 105, 90, 126, 135];

const FAR: [usize; COEFFICIENTS] = [147, 147, 147, 98, 147, 136, 98, 152, 147];

// So many entries are read from the field's table of powers; the others are whole blocks.
const STARTED: usize = 167;

// The entries of table d that are read from the field's table of powers.
fn start_table(field: BinaryField, tables: &mut [u16], d: usize)
    requires { (length field.exp.now ≡ 2047) × (length tables.old ≡ 18784) × (d ≤ 8) }
    ensures { TableFilled field.entry.exp.now tables.old d 167 tables.new }
{
    let mut k: usize = 0;
    for m in 0..STARTED {
        tables[TABLE_ENTRIES * d + m] = field.exp[k];
        k = less(ORDER, k, d);
    }
}

fn block_sums(tables: &[u16], a: usize, b: usize) -> [u16; BLOCK]
    requires { (a + 40 ≤ length tables.now) × (b + 40 ≤ length tables.now) }
    ensures { result ≡ tabulate 40 (block_sum tables.now a b) }
{
    let mut sums = [0u16; BLOCK];
    for l in 0..BLOCK {
        sums[l] = symbols::sum(tables[a + l], tables[b + l]);
    }
    sums
}

// The sums are taken first and stored then: in one loop they would be taken one by one, since each might change the next.
fn add_block(tables: &mut [u16], s: usize, p: usize, q: usize)
    requires { (s + 40 ≤ length tables.old) × (p ≤ s) × (q ≤ s) }
    ensures { tables.new ≡ with_sums tables.old s p q }
{
    let sums = block_sums(tables, s - p, s - q);
    tables[s..s + BLOCK].copy_from_slice(&sums);
}

// The other entries of table d.
fn finish_table(tables: &mut [u16], d: usize)
    requires { (length tables.old ≡ 18784) × (0 < d) × (d ≤ 8) × TableFilled powers_b tables.old d 167 tables.old }
    ensures { TableFilled powers_b tables.old d 2087 tables.new }
{
    let p = NEAR[d];
    let q = FAR[d];
    for k in 0..(TABLE_ENTRIES - STARTED) / BLOCK {
        add_block(tables, TABLE_ENTRIES * d + STARTED + BLOCK * k, p, q);
    }
}

// Fills table d, the first that is missing.
fn fill_table(field: BinaryField, tables: &mut [u16], d: usize)
    requires exp_value { field.exp.now ≡ powers_b }
    requires power_tables { PowerTables field.exp.now tables.old × (d ≤ 8) × (d ≡ at tables.old 18783 + 1) }
    ensures { PowerTables field.entry.exp.now tables.new × (at tables.new 18783 ≡ d) }
{
    start_table(field, tables, d);
    finish_table(tables, d);
    tables[ENTRIES - 1] = d as u16;
}

// Fills the tables up to that of the degree that are missing.
fn need_tables(field: BinaryField, tables: &mut [u16], degree: usize)
    requires exp_value { field.exp.now ≡ powers_b }
    requires power_tables { PowerTables field.exp.now tables.old × (degree ≤ 8) }
    ensures { PowerTables field.entry.exp.now tables.new × (degree ≤ at tables.new 18783) }
{
    for d in usize::from(tables[ENTRIES - 1])..degree {
        fill_table(field, tables, d + 1);
    }
}

// x modulo the order: 2^11 is one more than the order, so that what stands above eleven bits is added to what stands below; the sum is below twice the order.
fn folded(x: usize) -> usize
    requires { x < 4194303 }
    ensures { result ≡ x % 2047 }
{
    fields::wrapped((x >> EXPONENT_BITS) + (x & ORDER), ORDER)
}

fn table_base(c: u16, d: usize) -> usize
    requires { d < 9 }
    ensures { result ≡ table_base c d }
{
    if c == 0 { 0 } else { TABLE_ENTRIES * d }
}

fn table_start(field: BinaryField, c: u16, d: usize, n: usize) -> usize
    requires { (d < 9) × (n ≤ 2047) }
    ensures { result ≡ table_start field.entry.log.now c d n }
{
    if c == 0 {
        return 0;
    }
    let e = ORDER.saturating_sub(exponent(field, c));
    folded(e * RECIPROCALS[d] + (ORDER + 1 - n))
}

// A term of a polynomial: the first entry of its table, and which entry from there on is its value at place 0.
#[derive(Clone, Copy)]
struct TermTable {
    base: usize,
    start: usize,
}

// The terms of degree 1, 2, .. 8.
fn tables_of(field: BinaryField, polynomial: [u16; COEFFICIENTS], n: usize) -> [TermTable; RADIUS]
    requires { n ≤ 2047 }
    ensures { (bases_of result ≡ table_bases polynomial) × (starts_of result ≡ table_starts field.entry.log.now polynomial n) }
{
    let mut terms = [TermTable { base: 0, start: 0 }; RADIUS];
    for d in 0..RADIUS {
        let c = polynomial[RADIUS - 1 - d];
        terms[d] = TermTable {
            base: table_base(c, d + 1),
            start: table_start(field, c, d + 1, n),
        };
    }
    terms
}

// Where the values of a term from place i on stand.
fn position(term: TermTable, i: usize) -> usize
    requires { (i < 2047) × (term.base ≤ 16696) × (term.start < 2047) }
    ensures { (result ≡ term.base + (term.start + i) % 2047) × (result + 40 ≤ 18784) }
{
    term.base + plus(ORDER, term.start, i)
}

fn four(tables: &[u16], a: usize, b: usize, c: usize, d: usize, l: usize) -> u16
    requires { Inside tables.now a b c d × (l < 40) }
    ensures { result ≡ four_at tables.now a b c d l }
{
    symbols::sum(
        symbols::sum(tables[a + l], tables[b + l]),
        symbols::sum(tables[c + l], tables[d + l]),
    )
}

// The sum of the entries l after eight positions.
fn eight(tables: &[u16], p: [usize; RADIUS], l: usize) -> u16
    requires { AllInside tables.now p × (l < 40) }
    ensures { result ≡ sum_from tables.now p l }
{
    symbols::sum(
        four(tables, p[0], p[1], p[2], p[3], l),
        four(tables, p[4], p[5], p[6], p[7], l),
    )
}

// Whether one of the 40 sums from the positions on is x. No branch: the places are read many at a time.
fn any(tables: &[u16], p: [usize; RADIUS], x: u16) -> bool
    requires { AllInside tables.now p }
    ensures { result ≡ false → (l : ℕ) → l < 40 → sum_from tables.now p l ≡ x → ⊥ }
{
    let mut found = false;
    for l in 0..BLOCK {
        found |= eight(tables, p, l) == x;
    }
    found
}

// The places of the 40 from i on where the sum is x are kept.
fn kept_of(tables: &[u16], p: [usize; RADIUS], x: u16, places: Places, i: usize) -> Places
    requires inside { AllInside tables.now p }
    requires count_bound { (places.count ≤ 8) × (i < 2047) }
    ensures { result ≡ kept_to (sum_from tables.now p) x i places 40 }
{
    let mut kept = places;
    for l in 0..BLOCK {
        if eight(tables, p, l) == x {
            kept = keep(kept, (i + l) as u16);
        }
    }
    kept
}

// The places of the 40 from i on where the sum of a polynomial's terms is x are kept; few blocks have such a place.
fn block(tables: &[u16], terms: &[TermTable; RADIUS], x: u16, places: Places, i: usize) -> Places
    requires tables_len { (length tables.now ≡ 18784) × (places.count ≤ 8) × (i < 2047) }
    requires by_index { ((k : ℕ) → at (bases_of terms.now) k ≤ 16696) × ((k : ℕ) → at (starts_of terms.now) k < 2047) }
    ensures { result ≡ kept_to (tables_sum tables.now (bases_of terms.now) (starts_of terms.now) i) x i places 40 }
{
    let mut p = [0usize; RADIUS];
    for d in 0..RADIUS {
        p[d] = position(terms[d], i);
    }
    if any(tables, p, x) {
        return kept_of(tables, p, x, places, i);
    }
    places
}

// The places whose locators are roots of a polynomial, as `roots` gives them, block by block.
fn scanned(field: BinaryField, tables: &[u16], polynomial: [u16; COEFFICIENTS], n: usize) -> Places
    requires tables { Tables field.exp.now field.log.now }
    requires tables_for { TablesFor field.exp.now field.log.now polynomial n tables.now }
    ensures { Roots field.entry.exp.now field.entry.log.now polynomial n n result.at result.count }
{
    let terms = tables_of(field, polynomial, n);
    let x = polynomial[COEFFICIENTS - 1];
    let mut p = Places::NONE;
    for k in 0..n / BLOCK {
        p = block(tables, &terms, x, p, BLOCK * k);
    }
    p
}

// The places whose locators are roots of a polynomial, as `roots` gives them. A polynomial of degree at most 1 needs no tables.
pub(crate) fn roots_by_tables(
    field: BinaryField,
    tables: &mut [u16],
    polynomial: [u16; COEFFICIENTS],
    n: usize,
) -> Places
    requires tables { Tables field.exp.now field.log.now }
    requires n_in_bounds { (n ≤ length field.exp.now) × (n < 65536) × (n % 40 ≡ 0) × (length field.exp.now ≡ 2047) }
    requires by_index { (k : ℕ) → at polynomial k < length field.log.now }
    requires exp_value { (field.exp.now ≡ powers_b) × PowerTables field.exp.now tables.old }
    ensures roots { Roots field.entry.exp.now field.entry.log.now polynomial n n result.at result.count }
    ensures power_tables { PowerTables field.entry.exp.now tables.new }
{
    let z = leading_zeros(&polynomial);
    if COEFFICIENTS - 2 <= z {
        return roots(field, polynomial, n);
    }
    need_tables(field, tables, RADIUS - z);
    scanned(field, tables, polynomial, n)
}
