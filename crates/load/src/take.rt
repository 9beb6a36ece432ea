// One command taken: for each code one condition, and where it holds the change of the tables. Which number
// a command is refused with is asked of refuse.rt, and only once one is.
ghost use Rattle.std.specs.Prelude.{ℕ, ◌+◌, ◌≤◌, ◌<◌, ◌≡◌, List, IfSome, is_some};
ghost use Rattle.std.specs.Bool.{then_some};
ghost use Rattle.value.specs.Test.{◌<?◌, pick};
ghost use Rattle.program.specs.Command as C;
ghost use Rattle.load.specs.Clauses.{Shaped, state, Taking, Making, Stepped, valued};

use crate::known::Known;
use crate::refuse::content_formed;
use crate::standing::{bit, has_source, is_ready};
use crate::{Location, Locations, Progress, Scan};
use program::{Command, byte, result_of, shape_of};

impl Known<'_> {
    // A value of the source's kind, once, before the React.
    fn supply(&self, locations: &mut Locations, c: Command) -> bool
        requires shaped { Shaped self.now.program.now (state locations.old 0) }
        ensures { let k = self.now in
            ((here : ℕ) →
            Taking k.program.now k.reactor here locations.old locations.new c (C.supply c.x c.a c.b) result) }
    {
        let v = c.v();
        let from = locations.seen(c.a);
        let to = locations.seen(c.b);
        let n = self.port(to.kind, 0);
        let k = self.port(to.kind, 2 + c.x as u16);
        let right = (v == 0)
            & (from.standing == Location::VALUE)
            & ((Location::WAITING <= to.standing)
                & (((c.x < n) & (from.kind == k)) & !has_source(to.standing, c.x)));
        if right {
            let t = to.standing as u16 + bit(c.x);
            locations.restand(c.b, t as u8);
        }
        right
    }

    // Once every source is supplied.
    fn react(&self, locations: &mut Locations, c: Command) -> bool
        ensures { let k = self.now in
            ((here : ℕ) → Taking k.program.now k.reactor here locations.old locations.new c (C.react c.b) result) }
    {
        let rest = c.x as u64 + c.a as u64 + c.v() as u64;
        let to = locations.seen(c.b);
        let n = self.port(to.kind, 0);
        let right = (rest == 0) & is_ready(to.standing, n);
        if right {
            locations.restand(c.b, Location::REACTED);
        }
        right
    }

    // A value of the own sink's kind, once.
    fn sink(&self, locations: &mut Locations, c: Command) -> bool
        ensures { let k = self.now in
            ((here : ℕ) → Taking k.program.now k.reactor here locations.old locations.new c (C.sink c.x c.a) result) }
    {
        let rest = c.b as u64 + c.v() as u64;
        let from = locations.seen(c.a);
        let k = self.port(self.shape, 9 + c.x as u16);
        let l = self.first_sink() + c.x as usize;
        let free = byte(&locations.standing, l) == Location::UNSET_SINK;
        let right = (rest == 0)
            & (from.standing == Location::VALUE)
            & ((c.x < self.sinks) & (from.kind == k))
            & free;
        if right {
            locations.stand(l, Location::SET_SINK, 0);
        }
        right
    }

    // Takes an R command, whose location is `here`; false if it is refused, and then nothing has changed.
    fn command_r(&self, locations: &mut Locations, here: usize, c: Command) -> bool
        requires shaped { Shaped self.now.program.now (state locations.old 0) }
        ensures { let k = self.now in
            Taking k.program.now k.reactor here locations.old locations.new c (C.decode c) result }
    {
        match c.code {
            Command::CONSTANT => locations.value(here, self.constant(c)),
            Command::GLOBAL => locations.value(here, self.global(c)),
            Command::SUPPLY => self.supply(locations, c),
            Command::REACT => self.react(locations, c),
            Command::CONSUME => {
                let k = self.consume(locations, c);
                locations.value(here, k)
            }
            Command::SINK => self.sink(locations, c),
            Command::ALLOC_POLY => locations.alloc_poly(here, c),
            Command::PRIMITIVE => {
                let k = locations.primitive(c);
                locations.value(here, k)
            }
            Command::FETCH => {
                let k = locations.fetch(c);
                locations.value(here, k)
            }
            Command::KEEP => locations.keep(c),
            _ => false,
        }
    }

    // What a D command makes of its location, unless it is refused.
    fn made(&self, c: Command) -> Option<Location>
        ensures { let k = self.now in
            ((s : Scan) (here : ℕ) → Making k.program.now k.reactor s here c (C.decode c) result) }
    {
        let rest = c.a as u64 + c.b as u64 + c.v() as u64;
        match c.code {
            Command::ALLOC_MONO => {
                let k = shape_of(self.program, c.x as u32);
                placed((rest == 0) & (c.x < self.reactor), Location::WAITING, k)
            }
            Command::MAKE_POLY => placed(
                (rest == 0) & (c.x < self.shapes),
                Location::FREE_POINT,
                c.x,
            ),
            Command::CELL => {
                let right = content_formed(self.program, c, c.x <= 1);
                placed(right, Location::FREE_CELL, c.x)
            }
            _ => None,
        }
    }
}

// A location's new standing and kind, unless the command is refused.
fn placed(right: bool, standing: u8, kind: u8) -> Option<Location>
    ensures { result ≡ then_some right (record { standing = standing; kind = kind }) }
{
    right.then_some(Location { standing, kind })
}

impl Locations {
    // By an operator of the branch point's kind, once: here is a new deployment of its shape.
    fn alloc_poly(&mut self, here: usize, c: Command) -> bool
        ensures { (p : List ℕ) (r : ℕ) → Taking p r here self.old self.new c (C.alloc_poly c.a c.b) result }
    {
        let rest = c.x as u64 + c.v() as u64;
        let from = self.seen(c.a);
        let to = self.seen(c.b);
        let right = (rest == 0)
            & (from.standing == Location::VALUE)
            & ((to.standing == Location::FREE_POINT) & (from.kind as u16 == 2 + to.kind as u16));
        if right {
            self.restand(c.b, Location::USED_POINT);
            self.stand(here, Location::WAITING, to.kind);
        }
        right
    }

    // A value of the cell's kind, once.
    fn keep(&mut self, c: Command) -> bool
        ensures { (p : List ℕ) (r here : ℕ) → Taking p r here self.old self.new c (C.keep c.a c.b) result }
    {
        let rest = c.x as u64 + c.v() as u64;
        let from = self.seen(c.a);
        let to = self.seen(c.b);
        let right = (rest == 0)
            & (from.standing == Location::VALUE)
            & ((to.standing == Location::FREE_CELL) & (from.kind == to.kind));
        if right {
            self.restand(c.b, Location::KEPT_CELL);
        }
        right
    }

    // Here is a value of this kind, if there is one.
    fn value(&mut self, here: usize, kind: Option<u8>) -> bool
        ensures right { result ≡ is_some kind }
        ensures done { (n : ℕ) → state self.new n ≡ valued kind (state self.old n) here }
    {
        match kind {
            Some(k) => {
                self.stand(here, Location::VALUE, k);
                true
            }
            None => false,
        }
    }
}

impl Progress {
    // Takes the next command of the reactor, a D command, and hands the next state back, or none if it is
    // refused, and then no table has changed.
    fn take_d(self, known: &Known, locations: &mut Locations, c: Command) -> Option<Progress>
        requires here { self.next < known.now.declared }
        ensures step { let k = known.now in
            Stepped k.program.now k.reactor (state locations.old self.next) c locations.new result }
        ensures counted { IfSome result (λ q. q.results ≡ self.results) }
    {
        let m = known.made(c)?;
        locations.stand(known.sources as usize + self.next, m.standing, m.kind);
        Some(Progress {
            next: self.next + 1,
            results: self.results,
        })
    }

    // The same for an R command.
    fn take_r(self, known: &Known, locations: &mut Locations, c: Command) -> Option<Progress>
        requires shaped { Shaped known.now.program.now (state locations.old 0) }
        requires here { (known.now.declared ≤ self.next) × (self.next < 255) × (self.results ≤ self.next) }
        ensures step { let k = known.now in
            Stepped k.program.now k.reactor (state locations.old self.next) c locations.new result }
        ensures counted { IfSome result (λ q. q.results ≡ self.results + pick (C.takes_words (C.decode c)) 1 0) }
    {
        let here = known.sources as usize + self.next;
        if !known.command_r(locations, here, c) {
            return None;
        }
        Some(Progress {
            next: self.next + 1,
            results: self.results + result_of(c.code) as usize,
        })
    }

    // The same for either.
    pub(crate) fn take(
        self,
        known: &Known,
        locations: &mut Locations,
        c: Command,
    ) -> Option<Progress>
        requires shaped { Shaped known.now.program.now (state locations.old 0) }
        requires here { (self.next < 255) × (self.results ≤ self.next) }
        ensures step { let k = known.now in
            Stepped k.program.now k.reactor (state locations.old self.next) c locations.new result }
        ensures counted { let one = pick (C.takes_words (C.decode c)) 1 0 in
            IfSome result (λ q. q.results ≡ self.results + pick (self.next <? known.now.declared) 0 one) }
    {
        if self.next < known.declared as usize {
            self.take_d(known, locations, c)
        } else {
            self.take_r(known, locations, c)
        }
    }
}
