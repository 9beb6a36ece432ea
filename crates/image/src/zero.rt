// Stretches of zeros. The loop has no way out, so that many words are taken at a time.
ghost use Rattle.std.specs.Prelude.{◌≡◌, length, replicate};
ghost use Rattle.image.specs.Memory as M;

// Whether all words are zero.
fn all_zero(words: &[u32]) -> bool
    ensures { result ≡ M.all_zero words.now }
{
    let mut bits = 0;
    for word in words {
        bits |= *word;
    }
    bits == 0
}

// Whether the n words from `from` on are zero, those past the end not counted.
pub(crate) fn zero_at(memory: &[u32], from: usize, n: usize) -> bool
    ensures { result ≡ M.zero_at memory.now from n }
{
    if memory.len() <= from {
        return true;
    }
    if memory.len() - from <= n {
        return all_zero(&memory[from..]);
    }
    let end = from + n;
    all_zero(&memory[from..end])
}

// Zeroes all words.
pub fn wipe(words: &mut [u32])
    ensures { words.new ≡ replicate (length words.old) 0 }
{
    words.fill(0);
}
