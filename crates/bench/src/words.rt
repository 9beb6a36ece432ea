// The words that bytes make, low byte first.

// The word at `i`, and 0 past the last whole word.
fn word_of(bytes: &[u8], i: usize) -> u32 {
    let (words, _) = bytes.as_chunks::<4>();
    words.get(i).map_or(0, |word| u32::from_le_bytes(*word))
}

// Puts the words of `bytes` into memory, and zero into the further ones.
pub fn fill(memory: &mut [u32], bytes: &[u8]) {
    for (i, word) in memory.iter_mut().enumerate() {
        *word = word_of(bytes, i);
    }
}

// Whether memory has the words of `bytes`, and zero in the further ones.
pub fn same(memory: &[u32], bytes: &[u8]) -> bool {
    memory
        .iter()
        .enumerate()
        .all(|(i, word)| *word == word_of(bytes, i))
}
