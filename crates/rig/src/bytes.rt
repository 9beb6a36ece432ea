// Words in bytes. The loops have no test but their end's, so that they are done many words at a time.
ghost use Rattle.std.specs.Prelude.{◌+◌, ◌*◌, ◌≤◌, ◌<◌, ◌≡◌, length, get_or, take};
ghost use Rattle.rig.specs.Words.{word, words_of, holding};

// The word at byte j.
fn word_at(s: &[u8], j: usize) -> u32
    requires { j + 3 < length s.now }
    ensures { let b = s.now in
        result ≡ word (get_or b j 0) (get_or b (j + 1) 0) (get_or b (j + 2) 0) (get_or b (j + 3) 0) }
{
    u32::from_le_bytes([s[j], s[j + 1], s[j + 2], s[j + 3]])
}

// The words w become the first ones of s.
pub(crate) fn load(s: &[u8], w: &mut [u32])
    requires { 4 * length w.old ≤ length s.now }
    ensures { w.new ≡ take (length w.old) (words_of s.now) }
{
    for (k, word) in w.iter_mut().enumerate() {
        *word = word_at(s, k * 4);
    }
}

// The first words of s become w.
pub(crate) fn save(w: &[u32], s: &mut [u8])
    requires { 4 * length w.now ≤ length s.old }
    ensures { s.new ≡ holding s.old w.now }
{
    for (k, word) in w.iter().enumerate() {
        s[k * 4..k * 4 + 4].copy_from_slice(&word.to_le_bytes());
    }
}
