// The children of a deployment: the deployments that its D slots name. What a pass does for each.
ghost use Rattle.std.specs.Prelude.{ℕ, ◌<◌, ◌≡◌, List};
ghost use Rattle.program.specs.Bytes as B;
ghost use Rattle.image.specs.Memory as M;
ghost use Rattle.image.specs.Passes as P;
ghost use Rattle.image.specs.Clauses.{made, Leaves};

use crate::deployment::content;
use crate::table::{put_table_byte, table_byte};
use crate::tiled::Tiled;
use crate::words::{MOST_DEPTH, next, reactor};
use crate::{DSlot, Makes};
use program::{commands_d, reactors};

// One more name for c; more than once is as twice.
fn name(table: &mut [u8], c: u32)
    ensures { table.new ≡ P.name table.old c }
{
    let n = table_byte(table, c);
    put_table_byte(table, c, if n < 2 { n + 1 } else { 2 })
}

// One more than d; past the limit all depths are as one, so that a byte holds each.
fn one_deeper(d: u8) -> u8
    ensures { result ≡ P.one_deeper d }
{
    if d <= MOST_DEPTH { d + 1 } else { d }
}

// Puts c one below its owner o.
fn deepen(table: &mut [u8], o: u32, c: u32)
    ensures { table.new ≡ P.deepen o table.old c }
{
    let d = one_deeper(table_byte(table, o));
    put_table_byte(table, c, d)
}

impl Tiled<'_> {
    // A step for each deployment on the chain from `head`.
    fn step_chain<S: Fn(&mut [u8], u32)>(&self, step: &S, table: &mut [u8], head: u32)
        ghost does: { List ℕ → ℕ → List ℕ }
        requires takes { S.IsAlwaysCallable step.now }
        requires leaves { Leaves S.Fn step.now does }
        ensures { let p = self.now.program.now in let m = self.now.memory.now in
            table.new ≡ P.over does table.old (P.members_from p m (B.reactors p) head) }
    {
        let mut c = head;
        for _ in 0..reactors(self.program) {
            if c < 1 {
                return;
            }
            step(table, c);
            c = next(self.memory, c);
        }
    }

    // A step for each deployment that a D slot of o names.
    fn step_slot<S: Fn(&mut [u8], u32)>(&self, step: &S, table: &mut [u8], o: u32, slot: DSlot)
        ghost does: { List ℕ → ℕ → List ℕ }
        requires takes { S.IsAlwaysCallable step.now }
        requires leaves { Leaves S.Fn step.now does }
        ensures { let p = self.now.program.now in let m = self.now.memory.now in
            table.new ≡ P.over does table.old (P.named_by p m o slot.location (made slot.makes)) }
    {
        let c = content(self.program, self.memory, o, slot.location);
        match slot.makes {
            Makes::Deployment(_) => step(table, c),
            Makes::Point(_) => self.step_chain(step, table, c),
            Makes::Cell(_) => {}
            Makes::Nothing => {}
        }
    }

    // A step for each child of o.
    fn step_children<S: Fn(&mut [u8], u32)>(&self, step: &S, table: &mut [u8], o: u32)
        ghost does: { List ℕ → ℕ → List ℕ }
        requires takes { S.IsAlwaysCallable step.now }
        requires leaves { Leaves S.Fn step.now does }
        requires legal { M.reactor self.now.memory.now o < B.reactors self.now.program.now }
        ensures { let p = self.now.program.now in let m = self.now.memory.now in
            table.new ≡ P.over does table.old (P.children_of p m o) }
    {
        let r = reactor(self.memory, o);
        for j in 0..commands_d(self.program, r) {
            let slot = self.d_slot(o, j);
            self.step_slot(step, table, o, slot);
        }
    }

    // One more name for each child of o.
    pub(crate) fn name_children(&self, table: &mut [u8], o: u32)
        requires { M.reactor self.now.memory.now o < B.reactors self.now.program.now }
        ensures { let p = self.now.program.now in let m = self.now.memory.now in
            table.new ≡ P.over P.name table.old (P.children_of p m o) }
    {
        self.step_children(&name, table, o)
    }

    // Puts each child of o one below it.
    pub(crate) fn deepen_children(&self, table: &mut [u8], o: u32)
        requires { M.reactor self.now.memory.now o < B.reactors self.now.program.now }
        ensures { let p = self.now.program.now in let m = self.now.memory.now in
            table.new ≡ P.over (P.deepen o) table.old (P.children_of p m o) }
    {
        self.step_children(&|table: &mut [u8], c: u32| deepen(table, o, c), table, o)
    }
}
