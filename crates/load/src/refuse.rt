// Why a command is refused: a test for each of the numbers 3 to 6, 19 to 21 and 25, by the command's code.
ghost use Rattle.std.specs.Prelude.{ℕ, ◌+◌, ◌<◌, ◌≡◌, ◌≢◌, List};
ghost use Rattle.value.specs.Test.{◌and◌, ◌<?◌, ◌=?◌, pick};
ghost use Rattle.program.specs.Bytes as B;
ghost use Rattle.program.specs.Command as C;
ghost use Rattle.program.specs.Clauses.{row_of};
ghost use Rattle.program.specs.Kind.{content_legal};
ghost use Rattle.load.specs.Clauses.{told, state, refusal_next};
ghost use Rattle.load.specs.Refusal.{at_command};
ghost use Rattle.load.specs.Scan as S;

use crate::known::Known;
use crate::standing::is_ready;
use crate::{Location, Locations, Scan};
use answer::Refusal;
use program::{
    Code, Command, byte, bytes_at, commands_d, content_legal, globals, reactors, shape_of, shapes,
    sink_count, sink_kind, sink_loc, sinks_in, source_kind, sources_in,
};
use value::{is_primitive, is_withdrawn, kinds_fit, operands};

// 3 for a Constant and a Cell: x is a kind that is `allowed` there, and v is legal beside that kind.
pub(crate) fn content_formed(program: &[u8], c: Command, allowed: bool) -> bool
    ensures { result ≡ ((c.a + c.b =? 0) and allowed and content_legal program.now c.x (C.v_of c)) }
{
    let v = c.v();
    (c.a as u16 + c.b as u16 == 0) & allowed & content_legal(program, c.x, v)
}

// 3: a primitive's number exists, and what it does not take is zero.
fn primitive_formed(program: &[u8], c: Command) -> bool
    ensures { result ≡ S.formed program.now c (C.gives (C.primitive c.x c.a c.b c.v0)) }
{
    let n = operands(c.x);
    is_primitive(c.x)
        & (c.v1 as u16 + c.v2 as u16 + c.v3 as u16 == 0)
        & ((2 <= n) | (c.b == 0))
        & ((3 <= n) | (c.v0 == 0))
}

// 3: x in its range, a legal content, and zero in each byte that the command has no use for.
fn formed(program: &[u8], c: Command, code: Code) -> bool
    ensures { result ≡ S.formed program.now c (row_of code c) }
{
    let x = c.x as u64;
    let a = c.a as u64;
    let b = c.b as u64;
    let v = c.v() as u64;
    match code {
        Code::AllocMono => (a + b + v == 0) & (c.x < reactors(program)),
        Code::MakePoly => (a + b + v == 0) & (c.x < shapes(program)),
        Code::Constant => content_formed(program, c, (c.x as u16) < 2 + shapes(program) as u16),
        Code::Global => (a + b + v == 0) & (c.x <= globals(program)),
        Code::Supply => v == 0,
        Code::React => x + a + v == 0,
        Code::Consume => a + v == 0,
        Code::Sink => b + v == 0,
        Code::AllocPoly => x + v == 0,
        Code::Primitive => primitive_formed(program, c),
        Code::Cell => content_formed(program, c, c.x <= 1),
        Code::Fetch => x + a + v == 0,
        Code::Keep => x + v == 0,
    }
}

// 25: no primitive that is withdrawn.
#[tactic(auto, unfolding(crate::specs::Scan::remaining))]
fn remaining(c: Command, code: Code) -> bool
    ensures { result ≡ S.remaining (row_of code c) }
{
    code != Code::Primitive || !is_withdrawn(c.x)
}

// The refusal w, unless all is well.
fn unless(ok: bool, w: Refusal) -> Result<(), Refusal>
    ensures { result ≡ pick ok (Ok tt) (Err w) }
{
    if ok { Ok(()) } else { Err(w) }
}

// The tests are of any program and reactor, so that they go by these two, as the definitions do, and by no Known.
impl Scan {
    // 3: AllocMono, MakePoly and Cell among the D commands, the others among the R commands.
    fn in_sequence(&self, program: &[u8], r: u8, code: Code) -> bool
        ensures { let p = program.now in
            ((c : Command) → result ≡ S.in_sequence (C.sequence_of (row_of code c)) (self.now.next <? B.commands_d p r)) }
    {
        let in_d = self.next < commands_d(program, r as u32);
        match code {
            Code::AllocMono => in_d,
            Code::MakePoly => in_d,
            Code::Cell => in_d,
            _ => !in_d,
        }
    }

    // 4 for a primitive: each operand that it takes is a value.
    fn operands_located(&self, c: Command) -> bool
        ensures { result ≡ S.located self.now (C.gives (C.primitive c.x c.a c.b c.v0)) }
    {
        let n = operands(c.x);
        self.is_value(c.a) & ((n < 2) | self.is_value(c.b)) & ((n < 3) | self.is_value(c.v0))
    }

    // 4: each operand names a location of the kind of thing that it must be, and an earlier one.
    fn located(&self, c: Command, code: Code) -> bool
        ensures { result ≡ S.located self.now (row_of code c) }
    {
        match code {
            Code::Supply => self.is_value(c.a) & self.is_deployment(c.b),
            Code::React => self.is_deployment(c.b),
            Code::Consume => self.is_deployment(c.b),
            Code::Sink => self.is_value(c.a),
            Code::AllocPoly => self.is_value(c.a) & self.is_point(c.b),
            Code::Primitive => self.operands_located(c),
            Code::Fetch => self.is_cell(c.b),
            Code::Keep => self.is_value(c.a) & self.is_cell(c.b),
            _ => true,
        }
    }

    // 5 for Supply: the deployment has source x, of the value's kind.
    fn source_agreed(&self, program: &[u8], c: Command) -> bool
        ensures { (r : ℕ) → result ≡ S.agreed program.now r self.now (C.supply c.x c.a c.b) }
    {
        let k = self.kind_at(c.a);
        let s = self.kind_at(c.b);
        (c.x < sources_in(program, s)) & (k == source_kind(program, s, c.x))
    }

    // 5 for Sink: the reactor has sink x, of the value's kind.
    fn sink_agreed(&self, program: &[u8], r: u8, c: Command) -> bool
        ensures { result ≡ S.agreed program.now r self.now (C.sink c.x c.a) }
    {
        let k = self.kind_at(c.a);
        let s = shape_of(program, r as u32);
        (c.x < sink_count(program, r as u32)) & (k == sink_kind(program, s, c.x))
    }

    // 5 for Consume: the deployment has sink x.
    fn port_agreed(&self, program: &[u8], c: Command) -> bool
        ensures { (r : ℕ) → result ≡ S.agreed program.now r self.now (C.gives (C.consume c.x c.b)) }
    {
        let s = self.kind_at(c.b);
        c.x < sinks_in(program, s)
    }

    // 5 for a primitive: its operands have the kinds that its row of the table takes.
    fn operands_agreed(&self, c: Command) -> bool
        ensures { (p : List ℕ) (r : ℕ) → result ≡ S.agreed p r self.now (C.gives (C.primitive c.x c.a c.b c.v0)) }
    {
        let j = self.kind_at(c.a);
        let k = self.kind_at(c.b);
        let l = self.kind_at(c.v0);
        kinds_fit(c.x, j, k, l)
    }

    // 5: ports exist, and kinds agree.
    fn agreed(&self, program: &[u8], r: u8, c: Command, code: Code) -> bool
        ensures { result ≡ S.agreed program.now r self.now (row_of code c) }
    {
        match code {
            Code::Supply => self.source_agreed(program, c),
            Code::Consume => self.port_agreed(program, c),
            Code::Sink => self.sink_agreed(program, r, c),
            Code::AllocPoly => { self.kind_at(c.a) as u16 == 2 + self.kind_at(c.b) as u16 }
            Code::Primitive => self.operands_agreed(c),
            Code::Keep => self.kind_at(c.a) == self.kind_at(c.b),
            _ => true,
        }
    }

    // 20 for a Supply after React, 6 for a source that is supplied.
    fn supply_disorder(&self, c: Command, at: usize) -> Result<(), Refusal>
        ensures { (p : List ℕ) (r : ℕ) → result ≡ told (S.disorder p r self.now (C.supply c.x c.a c.b)) at }
    {
        unless(
            Location::WAITING <= self.standing_at(c.b),
            Refusal::TooLate(at),
        )?;
        unless(!self.is_supplied(c.b, c.x), Refusal::SetTwice(at))
    }

    // 20 for a second React, 19 for one before every source is supplied.
    fn react_disorder(&self, program: &[u8], c: Command, at: usize) -> Result<(), Refusal>
        ensures { (r : ℕ) → result ≡ told (S.disorder program.now r self.now (C.react c.b)) at }
    {
        let standing = self.standing_at(c.b);
        unless(Location::WAITING <= standing, Refusal::TooLate(at))?;
        let n = sources_in(program, self.kind_at(c.b));
        unless(is_ready(standing, n), Refusal::TooEarly(at))
    }

    // 6 for an own sink that is set.
    fn sink_disorder(&self, program: &[u8], r: u8, c: Command, at: usize) -> Result<(), Refusal>
        ensures { result ≡ told (S.disorder program.now r self.now (C.sink c.x c.a)) at }
    {
        let l = sink_loc(program, r as u32, c.x);
        let standing = byte(&self.standing, l as usize);
        unless(standing == Location::UNSET_SINK, Refusal::SetTwice(at))
    }

    // 6 set twice, 19 too early, 20 too late, 21 AllocMono of a reactor that is not lower.
    fn disorder(
        &self,
        program: &[u8],
        r: u8,
        c: Command,
        code: Code,
        at: usize,
    ) -> Result<(), Refusal>
        ensures { result ≡ told (S.disorder program.now r self.now (row_of code c)) at }
    {
        match code {
            Code::AllocMono => unless(c.x < r, Refusal::NotLower(at)),
            Code::Supply => self.supply_disorder(c, at),
            Code::React => self.react_disorder(program, c, at),
            Code::Consume => unless(
                self.standing_at(c.b) == Location::REACTED,
                Refusal::TooEarly(at),
            ),
            Code::Sink => self.sink_disorder(program, r, c, at),
            Code::AllocPoly => unless(
                self.standing_at(c.b) == Location::FREE_POINT,
                Refusal::TooLate(at),
            ),
            Code::Keep => unless(
                self.standing_at(c.b) == Location::FREE_CELL,
                Refusal::TooLate(at),
            ),
            _ => Ok(()),
        }
    }

    // Why the command at byte `at` is refused as the next of reactor r, if it is. Order comes last, once
    // all else is right.
    pub(crate) fn refuse(&self, program: &[u8], r: u8, c: Command, at: usize) -> Result<(), Refusal>
        ensures { result ≡ told (S.refusal_of program.now r self.now c (C.decode c)) at }
    {
        let Ok(code) = Code::try_from(c.code) else {
            return Err(Refusal::Command(at));
        };
        let formed = self.in_sequence(program, r, code) & formed(program, c, code);
        unless(formed, Refusal::Command(at))?;
        unless(remaining(c, code), Refusal::Withdrawn(at))?;
        unless(self.located(c, code), Refusal::Operand(at))?;
        unless(self.agreed(program, r, c, code), Refusal::PortOrKind(at))?;
        self.disorder(program, r, c, code, at)
    }
}

impl Known<'_> {
    // Why command i is refused, which is the next and is.
    pub(crate) fn refusal(&self, locations: &Locations, i: u8) -> Refusal
        requires bytes { i < self.now.declared + self.now.running }
        requires refused { let k = self.now in refusal_next k.program.now k.reactor (state locations.now i) ≢ 0 }
        ensures { let k = self.now in let p = k.program.now in
            result ≡ at_command (refusal_next p k.reactor (state locations.now i)) (B.command_at p k.reactor i) }
    {
        let scan = Scan {
            standing: locations.standing,
            kind: locations.kind,
            next: i,
        };
        let at = self.first + 8 * (i as u32);
        let c = bytes_at(self.program, at as u64);
        match scan.refuse(self.program, self.reactor, c, at as usize) {
            Err(w) => w,
            Ok(()) => unreachable!(),
        }
    }
}
