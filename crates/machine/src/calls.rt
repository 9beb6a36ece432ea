// 4.7, 4.23 A turn, and a preview. A turn runs in place; where it is refused, the words before it are brought back.
// A preview's turn runs in the work memory, on a copy.
ghost use Rattle.std.specs.Prelude.{◌*◌, ◌≤◌, ◌<◌, ◌≡◌, length, Ok, Err};
ghost use Rattle.program.specs.Bytes as B;
ghost use Rattle.program.specs.Location as L;
ghost use Rattle.program.specs.Clauses.{Facts};
ghost use Rattle.load.specs.Check.{accepted, IsAccepted};
ghost use Rattle.image.specs.Memory as M;
ghost use Rattle.image.specs.Clauses.{Tiling};
ghost use Rattle.image.specs.Passes.{sound_of};
ghost use Rattle.remus.specs.Clear as E;
ghost use Rattle.remus.specs.Run as R;
ghost use Rattle.remus.specs.Steady.{Steady};
ghost use Rattle.remus.specs.Undo as U;
ghost use Rattle.remus.specs.Turn as T;
ghost use Rattle.remus.specs.Preview.{preview_by, preview_of};
ghost use Rattle.machine.specs.Clauses.{turned, previewed, ready_of, Ending, Safe, Sure, TimeFits};

use crate::accepted::Accepted;
use crate::asked::asked;
use crate::places::Slots;
use answer::{Answer, Refusal};
use image::{MAIN_AT, sound_by, used, words_legal};
use load::judge;

impl Accepted<'_> {
    // Main has run to its end.
    fn complete(self, memory: &mut [u32], space: &mut [u32]) -> Answer
        requires ending { Ending self.program.now memory.old }
        requires time_fits { TimeFits memory.old }
        requires program_in_bounds { let p = self.program.now in
            2 * L.sink_count p (B.main_of p) ≤ length space.old }
        ensures { let p = self.entry.program.now in let m = memory.old in let sk = space.old in
            turned result memory.new space.new
            ≡ turned (Ok (M.used m)) (E.finished p m) (E.sunk p m sk) }
    {
        let u = used(memory);
        self.write_sinks(memory, space);
        self.finish(memory);
        Ok(u as usize)
    }

    // Main's run was refused; u is that of before.
    fn give_back(self, memory: &mut [u32], u: u32, w: Refusal) -> Answer
        requires tiling { Tiling self.program.now memory.old u M.main_at }
        ensures is { result ≡ Err w }
        ensures words { memory.new ≡ U.undo_of self.entry.program.now u memory.old }
    {
        self.undo(memory, u);
        Err(w)
    }

    // Runs main, from depth 1.
    fn run_main(self, memory: &mut [u32], readings: &[u32], space: &mut [u32]) -> Answer
        requires safe { Safe self.program.now readings.now memory.old }
        requires steady { Steady self.program.now readings.now M.most_depth 1 memory.old M.main_at }
        requires memory_bound { M.turns memory.old < M.most_turns }
        requires program_in_bounds { let p = self.program.now in
            2 * L.sink_count p (B.main_of p) ≤ length space.old }
        ensures { let p = self.entry.program.now in let m = memory.old in let rd = readings.now in
            let sk = space.old in
            turned result memory.new space.new ≡ T.by_run p m rd sk (R.main_run p rd m) }
    {
        let u = used(memory);
        let mut slots = Slots::new();
        match self.run(readings, memory, &mut slots, 1, MAIN_AT) {
            Ok(()) => self.complete(memory, space),
            Err(w) => self.give_back(memory, u, w),
        }
    }
}

// 9, and 10 to 13: whether a turn on this memory may begin to run.
fn ready(
    program: &[u8],
    facts: &[u64; 64],
    memory: &[u32],
    readings: &[u32],
    space: &[u32],
) -> Result<(), Refusal>
    requires { Facts program.now facts.now }
    ensures { let p = program.now in let m = memory.now in let rd = readings.now in
        let sk = space.now in
        result ≡ ready_of p m rd sk (sound_of p m) }
{
    sound_by(program, facts, memory).map_err(Refusal::UnsoundImage)?;
    asked(program, memory, readings, space)
}

// A turn of an accepted program: 8 and what follows.
fn turn_accepted(
    program: &[u8],
    facts: &[u64; 64],
    memory: &mut [u32],
    readings: &[u32],
    space: &mut [u32],
) -> Answer
    requires { Sure program.now facts.now }
    ensures { let p = program.now in let m = memory.old in let rd = readings.now in
        let sk = space.old in
        turned result memory.new space.new ≡ T.by_check p m rd sk (accepted p) }
{
    let n = memory.len();
    if !words_legal(n) {
        return Err(Refusal::MemoryLength(n));
    }
    ready(program, facts, memory, readings, space)?;
    Accepted { program, facts }.run_main(memory, readings, space)
}

// A turn on any bytes and words: done, with u, or refused; then memory and sink space are as at entry.
pub fn turn(program: &[u8], memory: &mut [u32], readings: &[u32], sinks: &mut [u32]) -> Answer
    ensures { let p = program.now in let m = memory.old in let rd = readings.now in
        let sk = sinks.old in
        turned result memory.new sinks.new ≡ T.turn_of p m rd sk }
{
    let mut facts = [0u64; 64];
    judge(program, &mut facts)?;
    turn_accepted(program, &facts, memory, readings, sinks)
}

// The words of `from` into `to`, which is as long. A loop, since for `copy_from_slice` the library for C would need
// `memmove` from outside.
fn copy_words(from: &[u32], to: &mut [u32])
    requires { length to.old ≡ length from.now }
    ensures { to.new ≡ from.now }
{
    for i in 0..to.len() {
        to[i] = from[i];
    }
}

// A preview with an accepted program: 8, 22 and what follows. Work memory is written only once the turn may run.
fn preview_accepted(
    program: &[u8],
    facts: &[u64; 64],
    memory: &[u32],
    work: &mut [u32],
    readings: &[u32],
    space: &mut [u32],
) -> Answer
    requires sure { Sure program.now facts.now }
    requires accepted { IsAccepted program.now }
    ensures { let p = program.now in let m = memory.now in let wk = work.old in
        let rd = readings.now in let sk = space.old in
        previewed result work.new space.new ≡ preview_by p m wk rd sk (accepted p) }
{
    let n = memory.len();
    if !words_legal(n) {
        return Err(Refusal::MemoryLength(n));
    }
    let k = work.len();
    if k != n {
        return Err(Refusal::WorkLength(k));
    }
    ready(program, facts, memory, readings, space)?;
    copy_words(memory, work);
    Accepted { program, facts }.run_main(work, readings, space)
}

// 4.23 A preview on any bytes and words: the turn's answer and sinks, and in the work memory what the turn would leave.
pub fn preview(
    program: &[u8],
    memory: &[u32],
    work: &mut [u32],
    readings: &[u32],
    sinks: &mut [u32],
) -> Answer
    ensures { let p = program.now in let m = memory.now in let wk = work.old in
        let rd = readings.now in let sk = sinks.old in
        previewed result work.new sinks.new ≡ preview_of p m wk rd sk }
{
    let mut facts = [0u64; 64];
    judge(program, &mut facts)?;
    preview_accepted(program, &facts, memory, work, readings, sinks)
}
