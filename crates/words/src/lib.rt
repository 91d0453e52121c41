// Single words of the two codes of an I.4 frame: whether a word is a code word, the parity that completes data to one, and the code word within eight
// symbols or places of a word.
//
// Outer words (modules reed_solomon, division, packed and corrector), Reed-Solomon over field A, lent as 16-bit symbols:
//     check    length and symbols, then the word's values at the sixteen roots, those of its remainder, all zero for a code word
//     encode   the data goes symbol by symbol through the division register; what the register then holds is the parity
//     correct  the values of the remainder at the sixteen roots are the syndromes, from which the decoder finds the errors
// Inner words (modules bch and wrong_places), binary BCH over field B, lent as bytes, place 0 the highest bit of the first:
//     check    the remainder of the 2,040 places after division by the divisor, zero for a code word
//     encode   the same remainder of the data followed by 88 zeros is the parity
//     correct  the remainder gives the syndromes, from which the decoder finds the wrong places
// The decoder (crate decoding) is one for both codes.
//
// Every input is answered: an entry returns what it found, or the refusal; a refusal leaves the output buffer as it was. Where a word has more
// than one fault, the order is 6 (its length), 3 (the size of the output buffer), 7 (a symbol above 1,023), then 4 (no code word) or 5 (no code word
// within eight).
#![tactic(auto)]

ghost use Rattle.std.specs.Prelude.{◌≡◌};
ghost use Rattle.words.specs.Answers.{number, refusal_number, correction_of, inner_correction_of, outer_checked, outer_encoded, inner_checked, inner_encoded, outer_corrected, inner_corrected};

use decoding::symbols;

mod bch;
pub mod corrector;
pub mod digit_table;
mod division;
pub mod packed;
pub mod reed_solomon;
pub mod wrong_places;

// The outer code. Lengths are counted in symbols.
#[derive(Clone, Copy)]
pub struct Outer;

impl Outer {
    // How many values a symbol has.
    pub const SYMBOLS: u16 = 1024;

    // The roots are a^j for 16 exponents j from this one on.
    pub const FIRST_ROOT: u16 = 0;

    pub const PARITY: usize = 16;

    pub const SHORTEST: usize = Outer::PARITY + 1;

    pub const LONGEST: usize = 1023;

    pub const SHORTEST_DATA: usize = Outer::SHORTEST - Outer::PARITY;

    pub const LONGEST_DATA: usize = Outer::LONGEST - Outer::PARITY;

    // A word within so many symbols of a code word is corrected ("reach").
    pub const RADIUS: usize = decoding::RADIUS;
}

// The inner code. A word is lent as bytes of eight places each.
#[derive(Clone, Copy)]
pub struct Inner;

impl Inner {
    pub const PLACES: usize = 2040;

    pub const PARITY: usize = 88;

    // The data places are those before this one, the parity places those from it on.
    pub const DATA: usize = Inner::PLACES - Inner::PARITY;

    pub const BYTES: usize = Inner::PLACES / 8;

    pub const PARITY_BYTES: usize = Inner::PARITY / 8;

    pub const DATA_BYTES: usize = Inner::BYTES - Inner::PARITY_BYTES;

    // A word within so many places of a code word is corrected.
    pub const RADIUS: usize = decoding::RADIUS;
}

// Why a call refuses. `u8::from` gives the papers' number.
#[derive(Clone, Copy, Debug, PartialEq, Eq)]
pub enum Refusal {
    // The payload is not as long as that of a frame.
    PayloadLength = 1,

    // The block is not as long as a frame.
    BlockLength = 2,

    // The output buffer is not exactly as long as the answer.
    BufferSize = 3,

    // A word that is no code word, a block that is no frame, or a row that is none.
    NoCodeWord = 4,

    // No code word within the radius: of a word, or of one of the words of a block.
    Uncorrectable = 5,

    // A word, or data for one, has none of the lengths allowed.
    WordLength = 6,

    // A symbol is above 1,023.
    Symbol = 7,

    // A row, or data for one, has not its length.
    RowLength = 8,
}

impl From<Refusal> for u8 {
    ghost from_gives = { λ refusal n. n ≡ number refusal };

    fn from(refusal: Refusal) -> u8 {
        refusal as u8
    }
}

// How many data places and how many parity places of an inner word were changed.
#[derive(Clone, Copy)]
pub struct InnerChanges {
    pub data: u16,
    pub parity: u16,
}

// An outer code word; 6, 7 or 4.
pub fn check_outer(word: &[u16]) -> Result<(), Refusal>
    ensures { refusal_number result ≡ outer_checked word.now }
{
    reed_solomon::tested(word, Outer::SHORTEST, Outer::LONGEST, true)?;
    let table = digit_table::table();
    let rest = packed::remainder(&table.entries, word);
    let values = packed::root_values(rest);
    if !symbols::all_below(&values, 1) {
        return Err(Refusal::NoCodeWord);
    }
    Ok(())
}

// Writes the parity symbols of data; 6, 3 or 7.
pub fn encode_outer(data: &[u16], out: &mut [u16]) -> Result<(), Refusal>
    ensures { (refusal_number result, out.new) ≡ outer_encoded «data».now out.old }
{
    let fits = out.len() == Outer::PARITY;
    reed_solomon::tested(data, Outer::SHORTEST_DATA, Outer::LONGEST_DATA, fits)?;
    let register = division::divide(&division::tables(), data);
    let cells = register.cells;
    out.copy_from_slice(&cells);
    Ok(())
}

// Writes the code word within eight symbols of the word; 6, 3, 7 or 5.
pub fn correct_outer(word: &[u16], out: &mut [u16]) -> Result<u16, Refusal>
    ensures { (correction_of result, out.new) ≡ outer_corrected word.now out.old }
{
    let fits = out.len() == word.len();
    reed_solomon::tested(word, Outer::SHORTEST, Outer::LONGEST, fits)?;
    let table = digit_table::table();
    let rest = packed::remainder(&table.entries, word);
    corrector::correct_from(rest, word, out)
}

// An inner code word; 6 or 4.
#[tactic(auto, using(crate::proofs::Steps::Entries::inner_tested), unfolding(crate::specs::Answers::inner_checked, crate::specs::Answers::first_of, crate::specs::Answers::refusal))]
pub fn check_inner(word: &[u8]) -> Result<(), Refusal>
    ensures { refusal_number result ≡ inner_checked word.now }
{
    if word.len() != Inner::BYTES {
        return Err(Refusal::WordLength);
    }
    if bch::remainder(word) != 0 {
        return Err(Refusal::NoCodeWord);
    }
    Ok(())
}

// Writes the parity bytes of data; 6 or 3.
pub fn encode_inner(data: &[u8], out: &mut [u8]) -> Result<(), Refusal>
    ensures { (refusal_number result, out.new) ≡ inner_encoded «data».now out.old }
{
    if data.len() != Inner::DATA_BYTES {
        return Err(Refusal::WordLength);
    }
    if out.len() != Inner::PARITY_BYTES {
        return Err(Refusal::BufferSize);
    }
    bch::store(bch::remainder(data), out);
    Ok(())
}

// Writes the code word within eight places of the word; 6, 3 or 5.
pub fn correct_inner(word: &[u8], out: &mut [u8]) -> Result<InnerChanges, Refusal>
    ensures { (inner_correction_of result, out.new) ≡ inner_corrected word.now out.old }
{
    if word.len() != Inner::BYTES {
        return Err(Refusal::WordLength);
    }
    if out.len() != Inner::BYTES {
        return Err(Refusal::BufferSize);
    }
    let e = bch::errors(word);
    if !wrong_places::explains(fields::field_b(), e) {
        return Err(Refusal::Uncorrectable);
    }
    bch::correct(word, e, out);
    Ok(InnerChanges {
        data: decoding::weight(e, 0, Inner::DATA),
        parity: decoding::weight(e, Inner::DATA, Inner::PLACES),
    })
}
