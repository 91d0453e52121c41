// Symbols of words: their sum, the symbol at a place, the test that all are below a bound, and copies. Every function is total, and is for the crates above too.
ghost use Rattle.std.specs.Prelude.{◌≡◌};
ghost use Rattle.fields.specs.Elements.{xor};
ghost use Rattle.fields.specs.Places.{at, all_below};
ghost use Rattle.fields.specs.Steps.Buffers.{copied};

// Each symbol of the word is below q.
pub fn all_below(word: &[u16], q: u16) -> bool
    ensures { result ≡ all_below q word.now }
{
    word.iter().all(|&x| x < q)
}

pub fn sum(x: u16, y: u16) -> u16
    ensures { result ≡ xor x y }
{
    x ^ y
}

// The symbol at place i; 0 past the end.
pub fn symbol(word: &[u16], i: usize) -> u16
    ensures { result ≡ at word.now i }
{
    word.get(i).copied().unwrap_or(0)
}

// Writes the word, if the buffer is as long. A loop: `copy_from_slice` of one slice to another calls memmove, and the archives need nothing of the C library but memcpy
// and memset.
pub fn copy<T: Copy>(word: &[T], out: &mut [T])
    ensures { out.new ≡ copied word.now out.old }
{
    if out.len() != word.len() {
        return;
    }
    for i in 0..word.len() {
        out[i] = word[i];
    }
}
