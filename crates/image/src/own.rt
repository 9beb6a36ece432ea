// A deployment's own words: wired, its D slots, and zeros in all others.
ghost use Rattle.std.specs.Prelude.{◌<◌, ◌≡◌};
ghost use Rattle.value.specs.Test.{◌=?◌, sweep};
ghost use Rattle.program.specs.Bytes as B;
ghost use Rattle.program.specs.Command as C;
ghost use Rattle.image.specs.Memory as M;
ghost use Rattle.image.specs.Passes as P;
ghost use Rattle.image.specs.Clauses.{command_sound, made};

use crate::deployment::{content, mark, value_at, zero_around};
use crate::table::is_start;
use crate::tiled::Tiled;
use crate::words::{next, reactor, wired};
use crate::{DSlot, Makes};
use program::{commands_d, legal, size_of, slot_at, source_count};
use value::Value;

impl Tiled<'_> {
    // Whether all slots of the deployment at a but D slots are zero. `clear_by` of the sweep has its counts
    // from a table that there is for an accepted program alone.
    fn clear_at(&self, a: u32) -> bool
        ensures { result ≡ P.clear_at self.now.program.now self.now.memory.now a }
    {
        let r = reactor(self.memory, a);
        let sources = source_count(self.program, r) as u16;
        let first = slot_at(self.program, r, sources);
        let end = slot_at(
            self.program,
            r,
            sources + commands_d(self.program, r) as u16,
        );
        zero_around(self.memory, a, first, end, size_of(self.program, r))
    }

    // Whether D slot l of o names a deployment of reactor x, above o, with next 0.
    fn mono_sound(&self, table: &[u8], o: u32, l: u16, x: u8) -> bool
        ensures { let p = self.now.program.now in let m = self.now.memory.now in
            result ≡ P.slot_sound p m table.now o l (C.deployment x) }
    {
        if mark(self.program, self.memory, o, l) != Value::DEPLOYMENT {
            return false;
        }
        let c = content(self.program, self.memory, o, l);
        (o < c)
            & is_start(table, c)
            & (reactor(self.memory, c) == x as u32)
            & (next(self.memory, c) == 0)
    }

    // Whether D slot l of o heads a chain of shape x.
    fn point_sound(&self, table: &[u8], o: u32, l: u16, x: u8) -> bool
        ensures { let p = self.now.program.now in let m = self.now.memory.now in
            result ≡ P.slot_sound p m table.now o l (C.point x) }
    {
        if mark(self.program, self.memory, o, l) != Value::POINT {
            return false;
        }
        let head = content(self.program, self.memory, o, l);
        self.chain_sound(table, o, x, head)
    }

    // Whether a D slot of o holds what its command makes; of a cell, a blank or legal content of its kind.
    fn slot_sound(&self, table: &[u8], o: u32, slot: DSlot) -> bool
        ensures { let p = self.now.program.now in let m = self.now.memory.now in
            result ≡ P.slot_sound p m table.now o slot.location (made slot.makes) }
    {
        let l = slot.location;
        match slot.makes {
            Makes::Deployment(x) => self.mono_sound(table, o, l, x),
            Makes::Point(x) => self.point_sound(table, o, l, x),
            Makes::Cell(x) => legal(self.program, x, value_at(self.program, self.memory, o, l)),
            Makes::Nothing => true,
        }
    }

    // Whether every D slot of o does.
    fn slots_sound(&self, table: &[u8], o: u32) -> bool
        requires { M.reactor self.now.memory.now o < B.reactors self.now.program.now }
        ensures { let p = self.now.program.now in let m = self.now.memory.now in
            let n = B.commands_d p (M.reactor m o) in
            result ≡ (sweep (command_sound p m table.now o) 0 n =? n) }
    {
        let r = reactor(self.memory, o);
        for j in 0..commands_d(self.program, r) {
            let slot = self.d_slot(o, j);
            if !self.slot_sound(table, o, slot) {
                return false;
            }
        }
        true
    }

    // Whether the deployment at a is wired, its slots right.
    pub(crate) fn own_sound(&self, table: &[u8], a: u32) -> bool
        requires { M.reactor self.now.memory.now a < B.reactors self.now.program.now }
        ensures { result ≡ P.own_sound self.now.program.now self.now.memory.now table.now a }
    {
        if wired(self.memory, a) != 1 {
            return false;
        }
        if !self.clear_at(a) {
            return false;
        }
        self.slots_sound(table, a)
    }
}
