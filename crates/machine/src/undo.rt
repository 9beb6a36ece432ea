// 6.27 How a refused turn's words are brought back in place, with u as it was.
ghost use Rattle.std.specs.Prelude.{◌-◌, ◌≡◌, true, false, length, replicate};
ghost use Rattle.value.specs.Test.{◌=?◌};
ghost use Rattle.image.specs.Memory as M;
ghost use Rattle.image.specs.Clauses.{Tiling};
ghost use Rattle.remus.specs.Undo as U;

use crate::accepted::Accepted;
use crate::back::Back;
use image::{MAIN_AT, SLOTS_AT, set_used, set_wired, turns, wipe};

const MAIN_SLOTS: usize = MAIN_AT as usize + SLOTS_AT;

// Zeroes all words from i on.
fn zero_from(memory: &mut [u32], i: usize)
    ensures { let m = memory.old in
        memory.new ≡ M.patch m i (replicate (length m - i) 0) }
{
    let n = memory.len();
    if i < n {
        wipe(&mut memory[i..n]);
    }
}

impl Accepted<'_> {
    // After a refused first turn main is unwired again, its slots zero.
    fn first_back(self, memory: &mut [u32], u: u32)
        ensures { memory.new ≡ U.back self.entry.program.now u true memory.old }
    {
        zero_from(memory, MAIN_SLOTS);
        set_wired(memory, MAIN_AT, 0)
    }

    // After a later one the new deployments go, and the old ones are as they were.
    fn later_back(self, memory: &mut [u32], u: u32)
        requires tiling { Tiling self.program.now memory.old u M.main_at }
        ensures { memory.new ≡ U.back self.entry.program.now u false memory.old }
    {
        self.pass_over(&Back { u }, memory, u);
        zero_from(memory, u as usize)
    }

    // All words but u, after a first or a later turn.
    fn back(self, memory: &mut [u32], u: u32)
        requires tiling { Tiling self.program.now memory.old u M.main_at }
        ensures { let p = self.entry.program.now in let m = memory.old in
            memory.new ≡ U.back p u (M.turns m =? 0) m }
    {
        if turns(memory) == 0 {
            self.first_back(memory, u)
        } else {
            self.later_back(memory, u)
        }
    }

    // The words before the turn.
    pub(crate) fn undo(self, memory: &mut [u32], u: u32)
        requires tiling { Tiling self.program.now memory.old u M.main_at }
        ensures { memory.new ≡ U.undo_of self.entry.program.now u memory.old }
    {
        self.back(memory, u);
        set_used(memory, u)
    }
}
