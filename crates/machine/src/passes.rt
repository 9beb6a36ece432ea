// A pass over the deployments below u, each changed in its own words.
ghost use Rattle.std.specs.Prelude.{ℕ, ◌+◌, ◌≤◌, ◌<◌, ◌≡◌, List, length};
ghost use Rattle.program.specs.Bytes as B;
ghost use Rattle.image.specs.Memory as M;
ghost use Rattle.image.specs.Passes as P;
ghost use Rattle.image.specs.Clauses.{Tiling};
ghost use Rattle.machine.specs.Clauses.{Local};

use crate::accepted::Accepted;
use image::{MAIN_AT, counts_at};

// What a pass does to each deployment.
pub(crate) trait Change {
    // of which programs it may be asked
    ghost suits: { Self → List ℕ → Type 0 };

    // what it makes of a program's words, at a deployment
    ghost makes: { Self → List ℕ → List ℕ → ℕ → List ℕ };

    fn change(&self, accepted: Accepted<'_>, memory: &mut [u32], o: u32)
        requires suited { suits self.now accepted.program.now }
        requires o_bound { M.reactor memory.old o < B.reactors accepted.program.now }
        requires o_in_bounds { o + M.size_at accepted.program.now memory.old o ≤ length memory.old }
        ensures is { memory.new ≡ makes self.now accepted.entry.program.now memory.old o }
        ensures local { Local accepted.entry.program.now memory.old o memory.new };
}

impl Accepted<'_> {
    // The change of all of them. Each kind has a loop of its own, which stays out of the turn's other code.
    #[inline(never)]
    pub(crate) fn pass_over<C: Change>(self, change: &C, memory: &mut [u32], u: u32)
        requires tiling { Tiling self.program.now memory.old u M.main_at }
        requires suited { C.suits change.now self.program.now }
        ensures { let p = self.entry.program.now in let m = memory.old in
            memory.new ≡ P.over (C.makes change.now p) m (M.starts_below p m u) }
    {
        let mut a = MAIN_AT;
        // no step of one size: each deployment is as long as its reactor says
        while a < u {
            let o = a;
            a = o + counts_at(self.facts, memory, o).size();
            change.change(self, memory, o);
        }
    }
}
