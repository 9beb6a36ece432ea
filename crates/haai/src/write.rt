// The bytes that a word adds: commands in the output, and the locations of values.
#![tactic(auto, unfolding(crate::proofs::Opens::writing))]

ghost use Rattle.std.specs.Prelude.{◌+◌, ◌≤◌, ◌≡◌, length, set};
ghost use Rattle.image.specs.Memory.{patch};
ghost use Rattle.haai.specs.Word.{bytes_of};
ghost use Rattle.haai.specs.Emit.{supplies, sinks_from};
ghost use Rattle.haai.specs.Places as J;
ghost use Rattle.haai.specs.Writing as Q;

use crate::grove::{opened_at, size_at};
use crate::measure::code_length;
use crate::{Application, Cursor, Knowing, Meant, Operator, Role, Size, Tally, Tree};
use program::{Command, byte, put};

pub(crate) fn put_bytes(out: &mut [u8], at: usize, bytes: &[u8])
    requires { at + length bytes.now ≤ length out.old }
    ensures { out.new ≡ patch out.old at bytes.now }
{
    out[at..at + bytes.len()].copy_from_slice(bytes);
}

// A command from byte `at` on, where there is room for it.
pub(crate) fn put_command(out: &mut [u8], at: usize, code: u8, x: u8, a: u8, b: u8, v: u32)
    ensures { out.new ≡ Q.put_eight out.old at code x a b v }
{
    if out.len() < 8 || out.len() - 8 < at {
        return;
    }
    let [v0, v1, v2, v3] = v.to_le_bytes();
    put_bytes(out, at, &[code, x, a, b, v0, v1, v2, v3]);
}

// ---- places and locations

impl Cursor {
    fn place_d(self) -> usize
        requires { self.first ≤ Q.most_first }
        ensures { result ≡ Q.place_d self }
    {
        self.first + 8 * (self.calls as usize)
    }

    fn place_r(self) -> usize
        requires { self.first ≤ Q.most_first }
        ensures { result ≡ Q.place_r self }
    {
        self.first + 8 * (self.declared as usize + self.steps as usize)
    }

    fn deployment_loc(self) -> u8
        ensures { result ≡ Q.deployment_loc self }
    {
        ((self.parameters as usize + self.calls as usize) % 256) as u8
    }

    fn location_r(self, n: usize) -> u8
        requires { n ≤ 8 }
        ensures { result ≡ Q.location_r self n }
    {
        ((self.parameters as usize + self.declared as usize + self.steps as usize + n) % 256) as u8
    }
}

// Where the commands of definition j begin.
pub(crate) fn first_at(sizes: &[Size], end: usize, j: usize) -> usize
    requires { (end ≤ 1000) × ((j ≤ 32) × (j ≤ length sizes.now)) }
    ensures { (result ≡ Q.first_at sizes.now end j) × (result ≤ Q.most_first) }
{
    end + code_length(&sizes[..j])
}

pub(crate) fn cursor_of(sizes: &[Size], first: usize, v: Tally, u: Tree) -> Cursor
    requires { J.Fits v }
    ensures { result ≡ Q.cursor_of sizes.now first v u }
{
    Cursor {
        first,
        parameters: v.own_names(),
        declared: size_at(sizes, u.definitions as usize).declared,
        calls: u.calls,
        steps: u.steps,
    }
}

// ---- where a value's location is noted

// No row has more than seven.
fn few(n: usize) -> usize
    ensures { result ≡ Q.few n }
{
    n.min(7)
}

// The entry for one more operand of an application at level i that has n.
fn entry_for(i: usize, n: usize) -> usize
    requires { i ≤ 255 }
    ensures { result ≡ Q.entry_for i n }
{
    7 * i + few(n)
}

// How many operands the innermost application has, or the body.
fn operands_so_far(u: Tree, pile: &[Application]) -> usize
    ensures { result ≡ Q.operands_so_far u pile.now }
{
    if u.level == 0 {
        return u.count as usize;
    }
    u.innermost(pile).operands as usize
}

// The entry for the next value.
fn next_entry(u: Tree, pile: &[Application]) -> usize
    ensures { result ≡ Q.next_entry u pile.now }
{
    entry_for(u.level as usize, operands_so_far(u, pile))
}

// The entry for the innermost application once it is whole.
fn outer_entry(u: Tree, pile: &[Application]) -> usize
    ensures { result ≡ Q.outer_entry u pile.now }
{
    if u.level <= 1 {
        return entry_for(0, u.count as usize);
    }
    let i = u.level as usize;
    entry_for(i - 1, opened_at(pile, i - 2).operands as usize)
}

// ---- what a word adds

// One R command that gives a value.
fn add_give(
    c: Cursor,
    entry: usize,
    code: u8,
    x: u8,
    a: u8,
    b: u8,
    v: u32,
    ls: &mut [u8],
    out: &mut [u8],
)
    requires { c.first ≤ Q.most_first }
    ensures { Q.added out.new ls.new
        ≡ Q.added (Q.put_eight out.old (Q.place_r c) code x a b v)
        (set ls.old entry (Q.location_r c 0)) }
{
    put_command(out, c.place_r(), code, x, a, b, v);
    put(ls, entry, c.location_r(0));
}

// A Supply to the deployment at b for each of the n locations from i on.
fn put_supplies(out: &mut [u8], at: usize, b: u8, ls: &[u8], i: usize, n: usize)
    requires { (at ≤ 300000) × ((i ≤ 2000) × (n ≤ 7)) }
    ensures { let row = Q.row_of ls.now i n in
        out.new ≡ Q.put_commands out.old at (supplies b 0 row) }
{
    for x in 0..n {
        let l = byte(ls, i + x);
        put_command(out, at + 8 * x, Command::SUPPLY, x as u8, l, b, 0);
    }
}

// A Sink for each of the first n locations.
fn put_sinks(out: &mut [u8], at: usize, ls: &[u8], n: usize)
    requires { (at ≤ 300000) × (n ≤ 7) }
    ensures { let row = Q.row_of ls.now 0 n in
        out.new ≡ Q.put_commands out.old at (sinks_from 0 row) }
{
    for x in 0..n {
        let l = byte(ls, x);
        put_command(out, at + 8 * x, Command::SINK, x as u8, l, 0, 0);
    }
}

// The R commands of a call whose n operands are in the row from i on.
fn put_call(c: Cursor, i: usize, n: usize, ls: &[u8], out: &mut [u8])
    requires { (c.first ≤ Q.most_first) × ((i ≤ 2000) × (n ≤ 7)) }
    ensures { let call = Q.call_r c ls.now i n in
        out.new ≡ Q.put_commands out.old (Q.place_r c) call }
{
    let b = c.deployment_loc();
    let at = c.place_r();
    put_supplies(out, at, b, ls, i, n);
    put_command(out, at + 8 * n, Command::REACT, 0, 0, b, 0);
    put_command(out, at + 8 * n + 8, Command::CONSUME, 0, 0, b, 0);
}

// A call of reactor j.
fn add_call(c: Cursor, j: usize, i: usize, n: usize, ls: &mut [u8], entry: usize, out: &mut [u8])
    requires { (c.first ≤ Q.most_first) × ((i ≤ 2000) × (n ≤ 7)) }
    ensures { Q.added out.new ls.new
        ≡ Q.add_call c j i n ls.old entry out.old }
{
    put_command(
        out,
        c.place_d(),
        Command::ALLOC_MONO,
        (j % 256) as u8,
        0,
        0,
        0,
    );
    put_call(c, i, n, ls, out);
    put(ls, entry, c.location_r(n + 1));
}

// An application of the operator o to the n operands in the row from i on.
fn add_applied(
    c: Cursor,
    o: Operator,
    i: usize,
    n: usize,
    ls: &mut [u8],
    entry: usize,
    out: &mut [u8],
)
    requires { (c.first ≤ Q.most_first) × ((i ≤ 2000) × (n ≤ 7)) }
    ensures { Q.added out.new ls.new
        ≡ Q.add_applied c o i n ls.old entry out.old }
{
    match o {
        Operator::Sign(sign) => {
            let a = byte(ls, i);
            let b = byte(ls, i + 1);
            let code = Command::PRIMITIVE;
            add_give(c, entry, code, sign as u8, a, b, 0, ls, out);
        }
        Operator::Reactor(j) => add_call(c, j, i, n, ls, entry, out),
    }
}

// The innermost application is whole.
fn add_apply(k: &Knowing, c: Cursor, ls: &mut [u8], out: &mut [u8])
    requires { c.first ≤ Q.most_first }
    ensures { Q.added out.new ls.new ≡ Q.add_apply k.now c ls.old out.old }
{
    let a = k.tree.innermost(&k.pile);
    let n = few(a.operands as usize);
    let entry = outer_entry(k.tree, &k.pile);
    add_applied(
        c,
        a.operator,
        7 * (k.tree.level as usize),
        n,
        ls,
        entry,
        out,
    );
}

// An operand that stands for m.
fn add_meant(c: Cursor, entry: usize, m: Meant, ls: &mut [u8], out: &mut [u8])
    requires { c.first ≤ Q.most_first }
    ensures { Q.added out.new ls.new ≡ Q.add_meant c entry ls.old out.old m }
{
    match m {
        Meant::Parameter(i) => put(ls, entry, (i % 256) as u8),
        Meant::Global(g) => add_give(c, entry, Command::GLOBAL, (g % 256) as u8, 0, 0, 0, ls, out),
    }
}

// A definition with n expressions is whole.
fn add_sinks(c: Cursor, n: usize, ls: &[u8], out: &mut [u8])
    requires { (c.first ≤ Q.most_first) × (n ≤ 7) }
    ensures { let ls = ls.entry.now in Q.added out.new ls ≡ Q.add_sinks c n ls out.old }
{
    put_sinks(out, c.place_r(), ls, n);
}

impl Knowing {
    // What the word w adds in its role.
    fn emit(&self, c: Cursor, t: &[u8], w: &[u8], role: Role, ls: &mut [u8], out: &mut [u8])
        requires { J.Fits self.now.tally × (c.first ≤ Q.most_first) }
        ensures { Q.added out.new ls.new ≡ Q.adds t.now w.now self.now c ls.old out.old role }
    {
        let entry = next_entry(self.tree, &self.pile);
        match role {
            Role::Source | Role::Reactor | Role::Parameter | Role::Operator | Role::Fixed => {}
            Role::Operand => add_meant(c, entry, self.tally.meant(t, &self.places, w), ls, out),
            Role::Constant(n) => add_give(c, entry, Command::CONSTANT, 0, 0, 0, n, ls, out),
            Role::Apply => add_apply(self, c, ls, out),
            Role::Define => add_sinks(c, few(self.tree.count as usize), ls, out),
        }
    }

    // What the word from a to before e adds.
    pub(crate) fn emit_word(
        &self,
        t: &[u8],
        a: usize,
        e: usize,
        role: Role,
        sizes: &[Size; 32],
        end: usize,
        ls: &mut [u8],
        out: &mut [u8],
    )
        requires fits { J.Fits self.now.tally × ((a ≤ e) × (e ≤ length t.now)) }
        requires end_bound { (end ≤ 1000) × (self.now.tree.definitions ≤ 32) }
        ensures { let t = t.now in let x = self.now in let zs = sizes.now in
            let c = Q.cursor_of zs (Q.first_at zs end x.tree.definitions) x.tally x.tree in
            Q.added out.new ls.new ≡ Q.adds t (bytes_of t a e) x c ls.old out.old role }
    {
        let first = first_at(sizes, end, self.tree.definitions as usize);
        let c = cursor_of(sizes, first, self.tally, self.tree);
        self.emit(c, t, &t[a..e], role, ls, out);
    }
}
