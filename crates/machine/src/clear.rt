// One deployment cleared: its header and its D slots stay, all else is zero.
ghost use Rattle.std.specs.Prelude.{ℕ, ◌+◌, ◌≤◌, ◌<◌, ◌≡◌, List, length};
ghost use Rattle.program.specs.Bytes as B;
ghost use Rattle.program.specs.Location as L;
ghost use Rattle.image.specs.Memory as M;
ghost use Rattle.remus.specs.Clear as E;

use crate::accepted::Accepted;
use crate::passes::Change;
use image::{SLOTS_AT, counts_at, wipe};

// Zeroes all slots but D slots of one deployment's words; D slots begin at `first` and end before `end`.
fn clear_words(words: &mut [u32], first: usize, end: usize)
    requires { (2 < first) × (first ≤ end) × (end ≤ length words.old) }
    ensures { let ws = words.old in
        ((p : List ℕ) (r : ℕ) → first ≡ M.slots_d p r → end ≡ M.slots_r p r → length ws ≡ L.size_of p r
        → words.new ≡ E.cleared_words p r ws) }
{
    wipe(&mut words[SLOTS_AT..first]);
    wipe(&mut words[end..]);
}

// Clears a deployment.
#[derive(Clone, Copy)]
pub(crate) struct Clear;

impl Change for Clear {
    ghost suits = { λ self p. Unit {0} };

    ghost makes = { λ self p m o. E.clear_one p m o };

    fn change(&self, accepted: Accepted<'_>, memory: &mut [u32], o: u32) {
        let counts = counts_at(accepted.facts, memory, o);
        let first = counts.slots_d() as usize;
        let end = counts.slots_r() as usize;
        let from = o as usize;
        let to = from + counts.size() as usize;
        clear_words(&mut memory[from..to], first, end);
    }
}
