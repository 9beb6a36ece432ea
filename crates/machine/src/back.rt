// One deployment of before a refused turn, brought back: the heads of its branch points, its other
// slots zero.
ghost use Rattle.std.specs.Prelude.{ℕ, ◌+◌, ◌≤◌, ◌<◌, ◌≡◌, length};
ghost use Rattle.program.specs.Bytes as B;
ghost use Rattle.program.specs.Command as C;
ghost use Rattle.program.specs.declared.Command.{Command};
ghost use Rattle.image.specs.Memory as M;
ghost use Rattle.remus.specs.Undo as U;

use crate::accepted::Accepted;
use crate::clear::Clear;
use crate::passes::Change;
use image::{counts_at, next, put_pair, word};
use program::{Command, byte, reactors};
use value::Value;

// The first of the chain from `head` that lies below u. It is stored as the new head, so none is 0, as in memory.
fn first_below(program: &[u8], memory: &[u32], u: u32, head: u32) -> u32
    ensures { result ≡ U.below (B.reactors program.now + 1) memory.now u head }
{
    let mut c = head;
    for _i in 0..reactors(program) as u16 + 1 {
        if c < u {
            return c;
        }
        c = next(memory, c);
    }
    0
}

// The branch point whose words lie at i heads again what it did.
fn point_back(program: &[u8], memory: &mut [u32], u: u32, i: usize)
    requires { i < 8589934592 }
    ensures { let p = program.now in let m = memory.old in
        ((o l x : ℕ) → i ≡ M.slot p m o l → memory.new ≡ U.slot_back p u m o l (C.point x)) }
{
    let head = word(memory, i + 1);
    let c = first_below(program, memory, u, head);
    put_pair(
        memory,
        i,
        Value {
            mark: Value::POINT,
            content: c,
        },
    )
}

// The slot at i of a D command with this code.
fn slot_back(program: &[u8], memory: &mut [u32], u: u32, code: u8, i: usize)
    requires { i < 8589934592 }
    ensures { let p = program.now in let m = memory.old in
        ((o l : ℕ) (c : Command) → c.code ≡ code → i ≡ M.slot p m o l
        → memory.new ≡ U.slot_back p u m o l (C.made_by (C.decode c))) }
{
    // one byte, held against one name: plainer than its conversion with an arm for the rest
    if code == Command::MAKE_POLY {
        point_back(program, memory, u, i);
    }
}

impl Accepted<'_> {
    // All D slots of o, which stand in a row.
    fn slots_back(self, memory: &mut [u32], u: u32, o: u32)
        requires o_bound { M.reactor memory.old o < B.reactors self.program.now }
        ensures { let p = self.entry.program.now in let m = memory.old in
            memory.new ≡ U.slots_back p u (B.commands_d p (M.reactor m o)) 0 m o }
    {
        let counts = counts_at(self.facts, memory, o);
        let at = counts.at() as usize;
        let first = o as usize + counts.slots_d() as usize;
        for j in 0..counts.commands_d() as usize {
            let code = byte(self.program, at + 8 * j);
            slot_back(self.program, memory, u, code, first + 2 * j);
        }
    }
}

// Brings back a deployment that is older than the turn.
#[derive(Clone, Copy)]
pub(crate) struct Back {
    pub u: u32,
}

impl Change for Back {
    ghost suits = { λ self p. Unit {0} };

    ghost makes = { λ self p m o. U.one_back p self.u m o };

    fn change(&self, accepted: Accepted<'_>, memory: &mut [u32], o: u32) {
        accepted.slots_back(memory, self.u, o);
        Clear.change(accepted, memory, o)
    }
}
