// The bytes of the header and the tables: which are legal, and which is the first that is not.
ghost use Rattle.std.specs.Prelude.{ℕ, ◌+◌, ◌-◌, ◌≤◌, ◌<◌, ◌≡◌, ◌≢◌, not, length};
ghost use Rattle.value.specs.Test.{sweep, ◌and◌, ◌or◌, ◌<?◌, ◌=?◌};
ghost use Rattle.program.specs.Bytes as B;
ghost use Rattle.load.specs.Tables.{between, header_legal, port_legal, shape_legal, main_legal, entry_legal};
ghost use Rattle.load.specs.Tables.{table_legal};

use program::{
    Header, byte, entry_at, globals, main_of, reactors, shape_at, shapes, sinks_in, sources_in,
    tables_end,
};

fn between(low: u8, high: u8, x: u8) -> bool
    ensures { result ≡ between low high x }
{
    (low <= x) & (x <= high)
}

// Whether byte i of the header is legal.
fn header_legal(program: &[u8], i: u8) -> bool
    ensures { result ≡ header_legal program.now i }
{
    let h = Header::from_bytes(program);
    match i {
        0 => h.format == Header::FORMAT,
        1 => between(1, Header::MOST_SHAPES, h.shapes),
        2 => between(1, Header::MOST_REACTORS, h.reactors),
        3 => h.globals <= Header::MOST_GLOBALS,
        _ => byte(program, i as usize) == 0,
    }
}

// Whether every byte of the header is legal. This loop and those below that answer a truth have no way out: where a
// program is accepted there is none to take.
pub(crate) fn header_passes(program: &[u8]) -> bool
    ensures { result ≡ (sweep (header_legal program.now) 0 8 =? 8) }
{
    let mut all = true;
    for i in 0..Header::BYTES {
        all &= header_legal(program, i);
    }
    all
}

// The first byte of the header that is not legal.
pub(crate) fn header_fault(program: &[u8]) -> u8
    requires { sweep (header_legal program.now) 0 8 ≢ 8 }
    ensures { result ≡ sweep (header_legal program.now) 0 8 }
{
    (0..Header::BYTES)
        .find(|i| !header_legal(program, *i))
        .unwrap()
}

// Whether k will do as kind byte j of the `count` ports of shape s: a lower kind, and zero past them.
fn port_legal(s: u8, count: u8, j: u8, k: u8) -> bool
    ensures { result ≡ port_legal s count j k }
{
    if j < count {
        return (k as u16) < 2 + s as u16;
    }
    k == 0
}

// Whether byte k of shape s is legal.
fn shape_legal(program: &[u8], s: u8, k: u8) -> bool
    ensures { result ≡ shape_legal program.now s k }
{
    let x = byte(program, shape_at(program, s) as usize + k as usize);
    if k == 0 {
        return x <= Header::MOST_SOURCES;
    }
    if k == 1 {
        return between(1, Header::MOST_SINKS, x);
    }
    if k < 9 {
        return port_legal(s, sources_in(program, s), k - 2, x);
    }
    port_legal(s, sinks_in(program, s), k - 9, x)
}

// Whether main may have shape s: it has no sources, and none of its sinks is of a reactor kind.
fn main_fits(program: &[u8], s: u8) -> bool
    requires { B.shape_at program.now s + 16 ≤ length program.now }
    ensures { result ≡ main_legal program.now s }
{
    let at = shape_at(program, s) as usize;
    let mut all = program[at] == 0;
    for x in 0..Header::MOST_SINKS {
        all &= program[at + 9 + x as usize] < 2;
    }
    all
}

// Whether reactor r may have shape s.
fn shape_fits(program: &[u8], r: u8, s: u8) -> bool
    requires { B.entry_at program.now 0 ≤ length program.now }
    ensures { let p = program.now in
        result ≡ ((s <? B.shapes p) and (not (r =? B.main_of p) or main_legal p s)) }
{
    if shapes(program) <= s {
        return false;
    }
    if r != main_of(program) {
        return true;
    }
    main_fits(program, s)
}

// Whether byte k of the entry of reactor r is legal.
fn entry_legal(program: &[u8], r: u8, k: u8) -> bool
    requires { B.entry_at program.now 0 ≤ length program.now }
    ensures { result ≡ entry_legal program.now r k }
{
    let x = byte(program, entry_at(program, r as u32) + k as usize);
    if k == 0 {
        return shape_fits(program, r, x);
    }
    if k == 1 {
        return x <= Header::MOST_DECLARED;
    }
    if k == 2 {
        return between(1, Header::MOST_RUNNING, x);
    }
    x == 0
}

// Whether byte i of the tables is legal.
fn table_legal(program: &[u8], i: u16) -> bool
    requires here { i < B.tables_end program.now }
    requires inside { B.tables_end program.now ≤ length program.now }
    ensures { result ≡ table_legal program.now i }
{
    let s = shape_at(program, 0);
    if i < s {
        return byte(program, i as usize) < 2;
    }
    let e = entry_at(program, 0) as u16;
    if i < e {
        let o = i - s;
        return shape_legal(program, (o / 16) as u8, (o % 16) as u8);
    }
    let o = i - e;
    entry_legal(program, (o / 4) as u8, (o % 4) as u8)
}

// Whether the kinds of all globals are legal.
fn globals_pass(program: &[u8]) -> bool
    requires { B.shape_at program.now 0 ≤ length program.now }
    ensures { let p = program.now in
        result ≡ (sweep (λ (i : ℕ). B.byte p (8 + i) <? 2) 0 (B.globals p) =? B.globals p) }
{
    let n = globals(program);
    let mut all = true;
    for i in 0..n {
        all &= program[8 + i as usize] < 2;
    }
    all
}

// Whether the seven kinds from byte `at` on will do for the n ports of shape s.
fn ports_pass(program: &[u8], at: usize, s: u8, n: u8) -> bool
    requires { (at + 7 ≤ length program.now) × (s < 255) }
    ensures { result ≡ (sweep (λ (x : ℕ). port_legal s n x (B.byte program.now (at + x))) 0 7 =? 7) }
{
    let mut all = true;
    for x in 0..Header::MOST_SOURCES {
        let most = if x < n { s + 1 } else { 0 };
        all &= program[at + x as usize] <= most;
    }
    all
}

// Whether every byte of shape s is legal, which stands at byte `at`.
fn shape_passes(program: &[u8], at: usize, s: u8) -> bool
    requires { (at ≡ B.shape_at program.now s) × (at + 16 ≤ length program.now) × (s < 255) }
    ensures { result ≡ (sweep (shape_legal program.now s) 0 16 =? 16) }
{
    let n = program[at];
    let m = program[at + 1];
    (n <= Header::MOST_SOURCES)
        & (between(1, Header::MOST_SINKS, m)
            & (ports_pass(program, at + 2, s, n) & ports_pass(program, at + 9, s, m)))
}

fn shapes_pass(program: &[u8]) -> bool
    requires { B.entry_at program.now 0 ≤ length program.now }
    ensures { let p = program.now in
        result ≡ (sweep (λ (s : ℕ). sweep (shape_legal p s) 0 16 =? 16) 0 (B.shapes p) =? B.shapes p) }
{
    let n = shapes(program);
    let mut at = shape_at(program, 0) as usize;
    let mut all = true;
    for s in 0..n {
        all &= shape_passes(program, at, s);
        at += 16;
    }
    all
}

// Whether every byte of the entry of reactor r is legal, which stands at byte `at`.
fn entry_passes(program: &[u8], at: usize, r: u8) -> bool
    requires { (at ≡ B.entry_at program.now r) × (at + 4 ≤ length program.now) }
    ensures { result ≡ (sweep (entry_legal program.now r) 0 4 =? 4) }
{
    shape_fits(program, r, program[at])
        & (program[at + 1] <= Header::MOST_DECLARED)
        & between(1, Header::MOST_RUNNING, program[at + 2])
        & (program[at + 3] == 0)
}

fn entries_pass(program: &[u8]) -> bool
    requires { B.tables_end program.now ≤ length program.now }
    ensures { let p = program.now in
        result ≡ (sweep (λ (r : ℕ). sweep (entry_legal p r) 0 4 =? 4) 0 (B.reactors p) =? B.reactors p) }
{
    let n = reactors(program);
    let mut at = entry_at(program, 0);
    let mut all = true;
    for r in 0..n {
        all &= entry_passes(program, at, r);
        at += 4;
    }
    all
}

// Whether every byte of the tables is legal.
pub(crate) fn tables_pass(program: &[u8]) -> bool
    requires { B.tables_end program.now ≤ length program.now }
    ensures { let p = program.now in
        result ≡ (sweep (table_legal p) 8 (B.tables_end p - 8) =? B.tables_end p) }
{
    globals_pass(program) & shapes_pass(program) & entries_pass(program)
}

// The first byte of the tables that is not legal.
pub(crate) fn table_fault(program: &[u8]) -> u16
    requires inside { B.tables_end program.now ≤ length program.now }
    requires fault { let p = program.now in
        sweep (table_legal p) 8 (B.tables_end p - 8) ≢ B.tables_end p }
    ensures { let p = program.now in
        result ≡ sweep (table_legal p) 8 (B.tables_end p - 8) }
{
    (8..tables_end(program))
        .find(|i| !table_legal(program, *i))
        .unwrap()
}
