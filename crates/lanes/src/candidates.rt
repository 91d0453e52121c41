// Candidates for the wrong places of all inner words. How they are found is free, and none is promised to be right: the crate above takes a word only after a
// test.
ghost use Rattle.std.specs.Prelude.{◌≡◌, length};

use crate::{RESIDUES, locators, search};

// Writes the places to be inverted in the wrong inner words: bit k of number p, the highest first, is 1 where word k is to be inverted in place p.
pub fn find(residues: &[u64; RESIDUES], wrong: u64, flips: &mut [u64])
    requires { length flips.old ≡ 2040 }
    ensures { length flips.new ≡ 2040 }
{
    let syndromes = locators::syndromes(residues);
    let locator = locators::locators(&syndromes);
    let degree = locators::degree(&locator);
    search::search(&locator, degree, wrong, flips.try_into().unwrap());
}
