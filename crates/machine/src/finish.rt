// 6.21 to 6.24 The end of a completed turn: main's sinks go out as pairs, cells take what was kept, all
// slots but D slots become zero, and there is one turn more.
ghost use Rattle.std.specs.Prelude.{◌+◌, ◌*◌, ◌≤◌, ◌<◌, ◌≡◌, length};
ghost use Rattle.program.specs.Bytes as B;
ghost use Rattle.program.specs.Location as L;
ghost use Rattle.image.specs.Memory as M;
ghost use Rattle.image.specs.Clauses.{Tiling};
ghost use Rattle.remus.specs.Cells as Cells;
ghost use Rattle.remus.specs.Clear as E;
ghost use Rattle.machine.specs.Clauses.{Ending, TimeFits};

use crate::accepted::Accepted;
use crate::clear::Clear;
use crate::command::sink_index;
use crate::keeps::Keep;
use image::{MAIN_AT, pair, put_pair, set_turns, turns, used};
use program::{fact, main_of};

impl Accepted<'_> {
    // What was kept becomes the content of the cells, in a program that has some.
    fn fill_cells(self, memory: &mut [u32])
        requires ending { Ending self.program.now memory.old }
        ensures { let p = self.entry.program.now in let m = memory.old in
            memory.new ≡ Cells.keep_of p (M.used m) m }
    {
        let u = used(memory);
        if self.has_cells() {
            self.pass_over(&Keep, memory, u);
        }
    }

    // 6.23, 6.24 Clearing, and one turn more.
    fn close(self, memory: &mut [u32])
        requires tiling { Tiling self.program.now memory.old (M.used memory.old) M.main_at }
        requires time_fits { TimeFits memory.old }
        ensures { memory.new ≡ E.closed self.entry.program.now memory.old }
    {
        let u = used(memory);
        let t = turns(memory);
        self.pass_over(&Clear, memory, u);
        set_turns(memory, t + 1)
    }

    // The words after a completed turn.
    pub(crate) fn finish(self, memory: &mut [u32])
        requires ending { Ending self.program.now memory.old }
        requires time_fits { TimeFits memory.old }
        ensures { memory.new ≡ E.finished self.entry.program.now memory.old }
    {
        self.fill_cells(memory);
        self.close(memory)
    }

    // Main's sinks as pairs.
    pub(crate) fn write_sinks(self, memory: &[u32], space: &mut [u32])
        requires memory_value { M.reactor memory.now M.main_at ≡ B.main_of self.program.now }
        requires program_in_bounds { let p = self.program.now in
            2 * L.sink_count p (B.main_of p) ≤ length space.old }
        ensures { space.new ≡ E.sunk self.entry.program.now memory.now space.old }
    {
        let n = fact(self.facts, main_of(self.program) as u32).sink_count();
        for x in 0..n {
            let i = sink_index(self.facts, memory, MAIN_AT, x);
            let v = pair(memory, i);
            put_pair(space, 2 * (x as usize), v);
        }
    }
}
