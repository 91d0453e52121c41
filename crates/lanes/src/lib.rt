// Bit-sliced inner words: a number of 64 bits holds one bit of each of the 64 inner words, eleven numbers an element of field B of each, or a residue. The
// wrong places of all inner words are found at once in this form:
//
//     elements     sums, products and squares
//     locators     syndromes from residues: that modulo the least polynomial of a^e gives the syndrome of a^e for the odd e, a square that of an even one;
//                  then the locator polynomials, by Berlekamp and Massey's algorithm
//     search       Chien search: the places at which a locator polynomial is zero
//     candidates   the three, one after the other
//
// What comes out are candidates: how wrong places are found is free, and the crate above takes a word only after a test.
//
// Apart from these, module counters counts for all inner words at once: in how many places two blocks differ.
#![tactic(auto)]

pub mod candidates;
pub mod counters;
mod elements;
mod locators;
mod search;

// Factors of the divisor, the degree of each, and the numbers that the residues of 64 inner words modulo all of them are.
pub const FACTORS: usize = 8;

pub const DEGREE: usize = 11;

pub const RESIDUES: usize = FACTORS * DEGREE;

// An inner word has five places and then blocks of eleven.
pub const FIRST_PLACES: usize = 5;

pub const WORD_BLOCKS: usize = 185;

// Every inner word: bit k of a number, the highest first, is that of inner word k.
pub const ALL: u64 = u64::MAX;

// The eleven coefficients of 64 elements or residues, the lowest power first.
#[derive(Clone, Copy)]
pub struct Lanes(pub [u64; DEGREE]);
