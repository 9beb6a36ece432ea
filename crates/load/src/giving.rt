// The R commands that give a value: its kind, or none where the command is refused.
ghost use Rattle.std.specs.Prelude.{ℕ, ◌≡◌, List};
ghost use Rattle.program.specs.Command as C;
ghost use Rattle.load.specs.Clauses.{state, Giving, one_right, two_right, alike_right, three_right};

use crate::known::Known;
use crate::{Location, Locations};
use program::{Command, content_legal, global_kind};

impl Known<'_> {
    pub(crate) fn constant(&self, c: Command) -> Option<u8>
        ensures { let k = self.now in
            ((t : Locations) → Giving k.program.now k.reactor t c (C.constant c.x (C.v_of c)) result) }
    {
        let v = c.v();
        let right = (c.a as u16 + c.b as u16 == 0)
            & ((c.x as u16) < 2 + self.shapes as u16)
            & content_legal(self.program, c.x, v);
        right.then_some(c.x)
    }

    pub(crate) fn global(&self, c: Command) -> Option<u8>
        ensures { let k = self.now in
            ((t : Locations) → Giving k.program.now k.reactor t c (C.global c.x) result) }
    {
        let rest = c.a as u64 + c.b as u64 + c.v() as u64;
        let k = global_kind(self.program, c.x);
        let right = (rest == 0) & (c.x <= self.globals);
        right.then_some(k)
    }

    pub(crate) fn consume(&self, locations: &Locations, c: Command) -> Option<u8>
        ensures { let k = self.now in
            Giving k.program.now k.reactor locations.now c (C.consume c.x c.b) result }
    {
        let rest = c.a as u64 + c.v() as u64;
        let from = locations.seen(c.b);
        let n = self.port(from.kind, 1);
        let k = self.port(from.kind, 9 + c.x as u16);
        let right = (rest == 0) & (from.standing == Location::REACTED) & (c.x < n);
        right.then_some(k)
    }
}

impl Locations {
    pub(crate) fn fetch(&self, c: Command) -> Option<u8>
        ensures { (p : List ℕ) (r : ℕ) → Giving p r self.now c (C.fetch c.b) result }
    {
        let rest = c.x as u64 + c.a as u64 + c.v() as u64;
        let from = self.seen(c.b);
        let cell = (Location::FREE_CELL <= from.standing) & (from.standing <= Location::KEPT_CELL);
        let right = (rest == 0) & cell;
        right.then_some(from.kind)
    }

    // Whether c is right as a primitive of one operand, which may be `any` value or must be a truth.
    fn one_right(&self, c: Command, any: bool) -> bool
        ensures { (n : ℕ) → result ≡ one_right (state self.now n) c any }
    {
        let rest = c.b as u64 + c.v() as u64;
        let a = self.seen(c.a);
        (rest == 0) & (a.standing == Location::VALUE) & (any | (a.kind == 1))
    }

    // As one of two operands of kind k.
    fn two_right(&self, c: Command, k: u8) -> bool
        ensures { (n : ℕ) → result ≡ two_right (state self.now n) c k }
    {
        let a = self.seen(c.a);
        let b = self.seen(c.b);
        let values = (a.standing == Location::VALUE) & (b.standing == Location::VALUE);
        (c.v() == 0) & values & ((a.kind == k) & (b.kind == k))
    }

    // As one of two operands of one kind.
    fn alike_right(&self, c: Command) -> bool
        ensures { (n : ℕ) → result ≡ alike_right (state self.now n) c }
    {
        let a = self.seen(c.a);
        let b = self.seen(c.b);
        let values = (a.standing == Location::VALUE) & (b.standing == Location::VALUE);
        (c.v() == 0) & values & (a.kind == b.kind)
    }

    // As one of a truth and two operands of one kind.
    fn three_right(&self, c: Command) -> bool
        ensures { (n : ℕ) → result ≡ three_right (state self.now n) c }
    {
        let a = self.seen(c.a);
        let b = self.seen(c.b);
        let d = self.seen(c.v0);
        let values = (a.standing == Location::VALUE)
            & (b.standing == Location::VALUE)
            & (d.standing == Location::VALUE);
        (c.v() == c.v0 as u32) & values & ((a.kind == 1) & (b.kind == d.kind))
    }

    pub(crate) fn primitive(&self, c: Command) -> Option<u8>
        ensures { (p : List ℕ) (r : ℕ) → Giving p r self.now c (C.primitive c.x c.a c.b c.v0) result }
    {
        match c.x {
            0..=3 => self.two_right(c, 0).then_some(0),
            5..=6 => self.two_right(c, 0).then_some(1),
            7 => self.one_right(c, false).then_some(1),
            8..=9 => self.two_right(c, 1).then_some(1),
            10 => self.one_right(c, true).then_some(1),
            11 => self.three_right(c).then_some(self.seen(c.b).kind),
            12 => self.alike_right(c).then_some(self.seen(c.b).kind),
            13 => self.two_right(c, 0).then_some(0),
            _ => None,
        }
    }
}
