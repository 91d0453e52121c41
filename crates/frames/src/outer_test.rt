// Whether the outer words of a block are code words, from its bytes as they stand: sixty bits are six symbols, and a step of the division takes so many.
ghost use Rattle.std.specs.Prelude.{◌≡◌, ◌&&◌, ◌+◌, ◌^◌, ◌≤◌, ◌<◌};
ghost use Rattle.words.specs.Bits.{bit_at};
ghost use Rattle.words.specs.OuterCode.{is_outer};
ghost use Rattle.words.specs.Steps.SixSymbols.{joined_from, Packs};
ghost use Rattle.frames.specs.Frames.{data_in};
ghost use Rattle.frames.specs.Correction.{received_word};
ghost use Rattle.frames.specs.Steps.Received.{divided_to, outer_codes};

use crate::{Frame, bits, outer_words};
use words::digit_table::DigitTable;
use words::packed::Packed;
use words::{digit_table, packed};

// The number that n data symbols of outer word w are, from symbol i on. The last ends with the padding bits, which are zeros.
fn data_symbols(block: &[u8; Frame::BYTES], w: usize, i: usize, n: usize) -> u64
    requires { (w < 16) × (n ≤ 6) × (i + n ≤ data_in w) × (i ≤ 765) }
    ensures { (result ≡ joined_from (received_word (bit_at block.now) w) i n) × (result < 2 ^ 60) }
{
    let t = Frame::WORD_SYMBOLS * w + i;
    let x = bits::symbols(block, Frame::SYMBOL_BITS * t, n);
    if t + n == outer_words::PADDED + 1 {
        return (x >> Frame::PADDING) << Frame::PADDING;
    }
    x
}

// The number that n parity symbols of outer word w are, from parity symbol i on. Those of the last word stand before the place that the padding bits would have.
fn parity_symbols(block: &[u8; Frame::BYTES], w: usize, i: usize, n: usize) -> u64
    requires { (w < 16) × (n ≤ 6) × (i + n ≤ 16) }
    ensures { result ≡ joined_from (received_word (bit_at block.now) w) (data_in w + i) n }
{
    let r = Frame::SYMBOL_BITS * (Frame::WORD_SYMBOLS * w + outer_words::data_in(w) + i);
    if w < outer_words::LAST {
        return bits::symbols(block, r, n);
    }
    bits::symbols(block, r - Frame::PADDING, n)
}

// The register after the first n symbols of outer word w.
fn first_symbols(table: &DigitTable, block: &[u8; Frame::BYTES], w: usize, n: usize) -> Packed
    requires { (w < 16) × (n < 6) }
    ensures { Packs result.high result.middle result.low (divided_to (bit_at block.now) w n) }
{
    packed::six_parity(&table.entries, data_symbols(block, w, 0, n))
}

// The register after six data symbols more, from symbol i on.
fn six_more(table: &DigitTable, block: &[u8; Frame::BYTES], w: usize, i: usize, p: Packed) -> Packed
    requires within { (w < 16) × (i + 6 ≤ data_in w) × (i ≤ 765) }
    requires packs { Packs p.high p.middle p.low (divided_to (bit_at block.now) w i) }
    ensures { Packs result.high result.middle result.low (divided_to (bit_at block.now) w (i + 6)) }
{
    p.next(&table.entries, data_symbols(block, w, i, packed::SYMBOLS))
}

// The parity of the data symbols of outer word w: the register after all of them.
fn divide(table: &DigitTable, block: &[u8; Frame::BYTES], w: usize) -> Packed
    requires { w < 16 }
    ensures { Packs result.high result.middle result.low (divided_to (bit_at block.now) w (data_in w)) }
{
    let end = outer_words::data_in(w);
    let first = end % packed::SYMBOLS;
    let mut p = first_symbols(table, block, w, first);
    for step in 0..end / packed::SYMBOLS {
        p = six_more(table, block, w, first + packed::SYMBOLS * step, p);
    }
    p
}

// Whether outer word w is a code word: its parity symbols are the parity of its data symbols, which p is.
fn ends_with(block: &[u8; Frame::BYTES], w: usize, p: Packed) -> bool
    requires w_bound { w < 16 }
    requires packs { Packs p.high p.middle p.low (divided_to (bit_at block.now) w (data_in w)) }
    ensures { result ≡ is_outer (received_word (bit_at block.now) w) }
{
    let high = p.high ^ parity_symbols(block, w, 0, packed::SYMBOLS);
    let middle = p.middle ^ parity_symbols(block, w, packed::SYMBOLS, packed::SYMBOLS);
    let last = parity_symbols(block, w, 2 * packed::SYMBOLS, packed::LAST_SYMBOLS);
    let low = p.low ^ (last << packed::LAST_ZEROS);
    let rest = Packed { high, middle, low };
    rest.is_zero()
}

fn is_code_word(table: &DigitTable, block: &[u8; Frame::BYTES], w: usize) -> bool
    requires { w < 16 }
    ensures { result ≡ is_outer (received_word (bit_at block.now) w) }
{
    ends_with(block, w, divide(table, block, w))
}

// The parities of the data symbols of outer words w and w + 1, neither of them the last: a step of the one does not wait for that of the other.
fn divide_two(table: &DigitTable, block: &[u8; Frame::BYTES], w: usize) -> (Packed, Packed)
    requires { w + 1 < 15 }
    ensures first { Packs result.0.high result.0.middle result.0.low (divided_to (bit_at block.now) w 765) }
    ensures second { Packs result.1.high result.1.middle result.1.low (divided_to (bit_at block.now) (w + 1) 765) }
{
    let n = Frame::DATA_SYMBOLS % packed::SYMBOLS;
    let mut first = first_symbols(table, block, w, n);
    let mut second = first_symbols(table, block, w + 1, n);
    for step in 0..Frame::DATA_SYMBOLS / packed::SYMBOLS {
        let i = n + packed::SYMBOLS * step;
        first = six_more(table, block, w, i, first);
        second = six_more(table, block, w + 1, i, second);
    }
    (first, second)
}

// Whether outer words w and w + 1 are code words.
fn are_two(table: &DigitTable, block: &[u8; Frame::BYTES], w: usize) -> bool
    requires { w + 1 < 15 }
    ensures { result ≡ (is_outer (received_word (bit_at block.now) w) && is_outer (received_word (bit_at block.now) (w + 1))) }
{
    let (first, second) = divide_two(table, block, w);
    ends_with(block, w, first) && ends_with(block, w + 1, second)
}

// Each outer word of the block is a code word: two at a time, then the last two, which differ in length.
pub(crate) fn are_code_words(block: &[u8; Frame::BYTES]) -> bool
    ensures { result ≡ outer_codes (bit_at block.now) }
{
    let table = digit_table::table();
    for pair in 0..Frame::WORDS / 2 - 1 {
        if !are_two(&table, block, 2 * pair) {
            return false;
        }
    }
    is_code_word(&table, block, Frame::WORDS - 2) && is_code_word(&table, block, Frame::WORDS - 1)
}
