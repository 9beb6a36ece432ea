// 6.3 to 6.6 The run of a deployment. One that is not wired carries out D first; at a React a nested one
// runs whole. The run calls itself for the nested one, and 64 less the depth falls.
ghost use Rattle.std.specs.Prelude.{ℕ, suc, ◌+◌, ◌-◌, ◌<◌, ◌≡◌, List, Ok};
ghost use Rattle.program.specs.Bytes as B;
ghost use Rattle.program.specs.Clauses.{Tells};
ghost use Rattle.image.specs.Memory as M;
ghost use Rattle.remus.specs.Run as R;
ghost use Rattle.remus.specs.Steady.{Steady};
ghost use Rattle.machine.specs.Clauses.{ran_as, Workable, Declared, Opened};

use crate::Outcome;
use crate::accepted::Accepted;
use crate::exec::declare;
use crate::places::{Slots, after};
use answer::Refusal;
use image::{reactor, set_wired, wired};
use program::{Counts, bytes_within, fact};

impl Accepted<'_> {
    // Carries out the D commands of the deployment at o, by the facts of its reactor.
    fn wire(self, memory: &mut [u32], counts: Counts, h: u8, o: u32) -> Result<(), Refusal>
        requires o_bound { M.reactor memory.old o < B.reactors self.program.now }
        requires tells { Tells self.program.now (M.reactor memory.old o) counts.word }
        requires workable { Workable memory.old }
        ensures { let p = self.entry.program.now in let m = memory.old in
            ((rd : List ℕ) (f : ℕ) → Steady p rd (suc f) h m o → M.wired m o ≡ 0
            → Declared p rd f h o m result memory.new) }
    {
        let n = counts.commands_d();
        let at = counts.at() as usize;
        let first = o as usize + counts.slots_d() as usize;
        for j in 0..n {
            let k = j as usize;
            let c = bytes_within(self.program, at + 8 * k);
            declare(self.facts, memory, h, first + 2 * k, c)?;
        }
        Ok(())
    }

    // Carries them out where that is still to be done.
    fn enter(self, memory: &mut [u32], counts: Counts, h: u8, o: u32) -> Result<(), Refusal>
        requires o_bound { M.reactor memory.old o < B.reactors self.program.now }
        requires tells { Tells self.program.now (M.reactor memory.old o) counts.word }
        requires workable { Workable memory.old }
        ensures { let p = self.entry.program.now in let m = memory.old in
            ((rd : List ℕ) (f : ℕ) → Steady p rd (suc f) h m o → Opened p rd f h o m result memory.new) }
    {
        if wired(memory, o) != 0 {
            set_wired(memory, o, 1);
            return Ok(());
        }
        self.wire(memory, counts, h, o)?;
        set_wired(memory, o, 1);
        Ok(())
    }

    // Runs the deployment at o, which stands at depth h, to its end. The table of places is lent to each
    // nested run, and laid again after it.
    pub(crate) fn run(
        self,
        readings: &[u32],
        memory: &mut [u32],
        slots: &mut Slots,
        h: u8,
        o: u32,
    ) -> Result<(), Refusal>
        requires workable { Workable memory.old }
        requires steady { Steady self.program.now readings.now (65 - h) h memory.old o }
        ensures { let p = self.entry.program.now in let m = memory.old in let rd = readings.now in
            ran_as result memory.new ≡ R.run_of (65 - h) p rd h m o }
    {
        let counts = fact(self.facts, reactor(memory, o));
        self.enter(memory, counts, h, o)?;
        let first = counts.first() as u8;
        let at = counts.at() as usize + 8 * (counts.commands_d() as usize);
        let end = counts.commands_r();
        slots.lay(self.program, at, first, 0);
        let mut n = first;
        for j in 0..end {
            slots.note(first + j, n);
            let here = after(o, n);
            let i = at + 8 * (j as usize);
            match self.exec(readings, memory, slots, h, o, here, i)? {
                Outcome::Given => n += 1,
                Outcome::Move => {}
                Outcome::Call(d) => {
                    self.run(readings, memory, slots, h + 1, d)?;
                    slots.lay(self.program, at, first, j + 1)
                }
            }
        }
        Ok(())
    }
}
