// A command, decoded once and carried out: those of D, and those of R.
ghost use Rattle.std.specs.Prelude.{ℕ, ◌+◌, ◌≤◌, ◌<◌, ◌≡◌, List, length};
ghost use Rattle.program.specs.Bytes as B;
ghost use Rattle.program.specs.Command as C;
ghost use Rattle.program.specs.Clauses.{Facts};
ghost use Rattle.program.specs.Location as L;
ghost use Rattle.image.specs.Memory as M;
ghost use Rattle.remus.specs.Steady.{Fits};
ghost use Rattle.machine.specs.Clauses.{did, doing, Declares, Here, Workable, PlacedTo, Reaches};

use crate::Outcome;
use crate::accepted::Accepted;
use crate::allocate::alloc_mono;
use crate::cells::{fetch, keep};
use crate::command::{constant, consume, global, of_kind, primitive, react, sink, supply};
use crate::places::Slots;
use answer::Refusal;
use image::put_pair;
use program::{Code, Command, bytes_within};
use value::Value;

// 2 MakePoly: an empty branch point.
fn make_poly(memory: &mut [u32], here: usize) -> Result<(), Refusal>
    requires { here < 8589934592 }
    ensures { let m = memory.old in
        ((p : List ℕ) (h o i x : ℕ) → Here p m o i here
        → Declares p h m o i (C.make_poly x) result memory.new) }
{
    put_pair(
        memory,
        here,
        Value {
            mark: Value::POINT,
            content: 0,
        },
    );
    Ok(())
}

// 11 Cell: its first content, v of kind x.
fn cell(memory: &mut [u32], here: usize, x: u8, v: u32) -> Result<(), Refusal>
    requires { here < 8589934592 }
    ensures { let m = memory.old in
        ((p : List ℕ) (h o i : ℕ) → Here p m o i here
        → Declares p h m o i (C.cell x v) result memory.new) }
{
    let first = of_kind(x, v);
    put_pair(memory, here, first);
    Ok(())
}

// Carries out the D command c, whose words lie at `here`.
pub(crate) fn declare(
    facts: &[u64; 64],
    memory: &mut [u32],
    h: u8,
    here: usize,
    c: Command,
) -> Result<(), Refusal>
    requires here_bound { here < 8589934592 }
    requires memory_len_bound { length memory.old ≤ M.most_words }
    ensures { let m = memory.old in
        ((p : List ℕ) (r o i : ℕ) → Facts p facts.now → c ≡ C.bytes_of p r i
        → i < B.commands_d p r → Fits p r m o i → Here p m o i here
        → Declares p h m o i (C.cmd_of p r i) result memory.new) }
{
    let Ok(code) = Code::try_from(c.code) else {
        return Ok(());
    };
    match code {
        Code::AllocMono => alloc_mono(facts, memory, h, here, c.x),
        Code::MakePoly => make_poly(memory, here),
        Code::Cell => cell(memory, here, c.x, c.v()),
        _ => Ok(()),
    }
}

impl Accepted<'_> {
    // Carries out the R command at byte `at`, of the deployment at o; its own words lie at `here`. Each command is
    // handed what it needs of the deployment, one by one: none needs h, o and `here`, and memory alone bounds `here`.
    pub(crate) fn exec(
        self,
        readings: &[u32],
        memory: &mut [u32],
        slots: &Slots,
        h: u8,
        o: u32,
        here: usize,
        at: usize,
    ) -> Result<Outcome, Refusal>
        requires at_in_bounds { at + 8 ≤ length self.program.now }
        requires reaches { let c = C.bytes_at self.program.now at in
            Reaches slots.now.before o here (length memory.old) (C.decode c) }
        requires workable { Workable memory.old }
        ensures { let p = self.entry.program.now in let m = memory.old in let rd = readings.now in
            ((r i : ℕ) → r < B.reactors p
            → at ≡ B.command_at p r i
            → B.commands_d p r ≤ i → Fits p r m o i → Here p m o i here
            → PlacedTo p r slots.now.before (L.command_loc p r i + 1)
            → did result memory.new ≡ doing p rd h m o i (C.cmd_of p r i)) }
    {
        let c = bytes_within(self.program, at);
        let Ok(code) = Code::try_from(c.code) else {
            return Ok(Outcome::Given);
        };
        let a = slots.index(o, c.a);
        let b = slots.index(o, c.b);
        match code {
            Code::Constant => Ok(constant(memory, here, c.x, c.v())),
            Code::Global => Ok(global(readings, memory, here, c.x)),
            Code::Supply => Ok(supply(memory, c.x, a, b)),
            Code::React => Ok(react(memory, b)),
            Code::Consume => Ok(consume(self.facts, memory, here, c.x, b)),
            Code::Sink => Ok(sink(self.facts, memory, o, c.x, a)),
            Code::AllocPoly => self.alloc_poly(memory, h, here, a, b),
            Code::Primitive => Ok(primitive(memory, slots, o, here, c.x, a, b, c.v0)),
            Code::Fetch => Ok(fetch(memory, here, b)),
            Code::Keep => Ok(keep(memory, here, a)),
            Code::AllocMono | Code::MakePoly | Code::Cell => Ok(Outcome::Given),
        }
    }
}
