// 6.22 What was kept becomes the content of the cells, deployment by deployment. A deployment that has
// not run keeps its cells. Where a reactor has no cell it has no Keep: its R commands are not looked at.
ghost use Rattle.std.specs.Prelude.{ℕ, ◌+◌, ◌*◌, ◌≤◌, ◌<◌, ◌≡◌, List, length};
ghost use Rattle.program.specs.Bytes as B;
ghost use Rattle.program.specs.Command as C;
ghost use Rattle.program.specs.Clauses.{Tells};
ghost use Rattle.image.specs.Memory as M;
ghost use Rattle.remus.specs.Cells as Cells;
ghost use Rattle.machine.specs.Clauses.{has_cell, has_cells, Remembering};

use crate::accepted::Accepted;
use crate::cells::kept;
use crate::passes::Change;
use image::{SLOTS_AT, counts_at, pair, put_pair};
use program::{Command, Counts, byte, bytes_within, fact, reactors, result_of};
use value::Value;

// Whether one of a reactor's D commands is a Cell.
fn has_cell(program: &[u8], counts: Counts) -> bool
    ensures { let p = program.now in
        ((r : ℕ) → Tells p r counts.word → result ≡ has_cell p r) }
{
    let at = counts.at() as usize;
    for j in 0..counts.commands_d() as usize {
        // one byte, held against one name: plainer than its conversion with an arm for the rest
        if byte(program, at + 8 * j) == Command::CELL {
            return true;
        }
    }
    false
}

impl Accepted<'_> {
    // Whether some reactor has a cell.
    pub(crate) fn has_cells(self) -> bool
        ensures { result ≡ has_cells self.entry.program.now }
    {
        for r in 0..reactors(self.program) as u32 {
            if has_cell(self.program, fact(self.facts, r)) {
                return true;
            }
        }
        false
    }
}

// What the Keep whose words lie at i kept becomes the content of its cell, at b, if it has run.
fn fill(memory: &mut [u32], i: usize, b: usize)
    requires { (i < 8589934592) × (b < 8589934592) }
    ensures { let m = memory.old in
        ((p : List ℕ) (o l a k : ℕ) → i ≡ M.slot p m o l → b ≡ M.slot p m o k
        → memory.new ≡ Cells.keep_by p m o l (C.keep a k)) }
{
    let v = pair(memory, i);
    if v.mark != Value::BLANK {
        put_pair(memory, b, kept(v));
    }
}

// What the R commands of o kept, by the facts of its reactor. Cells are D commands, whose slots stand in
// a row.
fn keep_each(program: &[u8], memory: &mut [u32], counts: Counts, o: u32)
    requires remembering { Remembering program.now }
    requires o_bound { M.reactor memory.old o < B.reactors program.now }
    requires r_in_bounds { let p = program.now in
        let r = M.reactor memory.old o in
        B.commands_at p r + 8 * B.commands_in p r ≤ length p }
    requires tells { Tells program.now (M.reactor memory.old o) counts.word }
    ensures { memory.new ≡ Cells.keep_one program.now memory.old o }
{
    let at = counts.at() as usize + 8 * (counts.commands_d() as usize);
    let mut next = o as usize + counts.slots_r() as usize;
    for j in 0..counts.commands_r() as usize {
        let c = bytes_within(program, at + 8 * j);
        let here = next;
        next += 2 * (result_of(c.code) as usize);
        // as in `has_cell`
        if c.code == Command::KEEP {
            fill(memory, here, o as usize + SLOTS_AT + 2 * (c.b as usize));
        }
    }
}

// Fills the cells of a deployment.
#[derive(Clone, Copy)]
pub(crate) struct Keep;

impl Change for Keep {
    ghost suits = { λ self p. Remembering p };

    ghost makes = { λ self p m o. Cells.keep_one p m o };

    fn change(&self, accepted: Accepted<'_>, memory: &mut [u32], o: u32) {
        let counts = counts_at(accepted.facts, memory, o);
        if has_cell(accepted.program, counts) {
            keep_each(accepted.program, memory, counts, o);
        }
    }
}
