// A grown image in two walks over its deployments: the first marks where they begin, the second
// tests each and names its children. The table has a byte for each three words: 0 where no deployment
// begins, 1 to 3 where one begins that is not named yet, and 4 more than its depth once it is. Where
// a walk finds a fault it stops: the passes find its place.
ghost use Rattle.std.specs.Prelude.{ℕ, ◌+◌, ◌≤◌, ◌<◌, ◌≡◌, true, List, [], ◌∷◌, length, replicate, Ok};
ghost use Rattle.value.specs.Test.{◌and◌, ◌<?◌};
ghost use Rattle.program.specs.Bytes as B;
ghost use Rattle.program.specs.Command as C;
ghost use Rattle.program.specs.Clauses.{Facts, Tells};
ghost use Rattle.image.specs.Memory as M;
ghost use Rattle.image.specs.Passes as P;
ghost use Rattle.image.specs.Clauses.{Tiling, starts_on, made, Placed, Sweeps, SlotSwept, SlotsSwept};
ghost use Rattle.image.specs.Clauses.{OwnSwept, Swept, Begun, Headed, Grown};
ghost use Rattle.image.specs.declared.Pass.TheVariants.{Starts};

use crate::Makes;
use crate::chain::{joins, linked};
use crate::commands::makes_at;
use crate::deployment::zero_around;
use crate::soundness::{main_first, sound};
use crate::table::{TABLE_BYTES, mark_start, put_table_byte, table_byte};
use crate::tiling::counts_at;
use crate::words::{MAIN_AT, MOST_TURNS, next, pair, reactor, turns, used, wired};
use crate::zero::zero_at;
use program::{Counts, legal, put, reactors};
use value::Value;

// The byte of a deployment that is named at depth 1, and at depth 64.
const LEAST: u8 = 5;

const MOST: u8 = 68;

// A small table, and how many words it is for.
const FEW_BYTES: usize = 64;

const FEW_WORDS: u32 = 192;

// Names c, which has to be a deployment above its owner o, below `last` and not named yet; k is o's
// byte.
fn link(table: &mut [u8], o: u32, k: u8, last: u32, c: u32) -> bool
    requires { Placed o k table.old }
    ensures { let t = table.old in let t₁ = table.new in
        (result ≡ true → Sweeps o (c ∷ []) (λ s. (o <? c) and (c <? last) and P.is_start s c) t t₁) }
{
    if !linked(table, o, last, c) {
        return false;
    }
    put_table_byte(table, c, k + 1);
    true
}

// The chain from `head`, which has to be of shape s. The walk is that of `chain_sound`, which promises
// what a failure means too, and so leaves its table as it is: they share `linked` and `joins`.
fn sweep_chain(
    program: &[u8],
    memory: &[u32],
    table: &mut [u8],
    o: u32,
    k: u8,
    s: u8,
    head: u32,
) -> bool
    requires { Placed o k table.old }
    ensures { let p = program.now in let m = memory.now in let n = B.reactors p in
        let members = P.members_from p m n head in let t = table.old in let t₁ = table.new in
        (result ≡ true → Sweeps o members (λ q. P.chain_from p m (n + 1) q o s (M.used m) (replicate 64 0) head) t t₁) }
{
    let mut seen = [0u8; 64];
    let mut last = used(memory);
    let mut c = head;
    for _ in 0..reactors(program) {
        if c < 1 {
            return true;
        }
        if !link(table, o, k, last, c) {
            return false;
        }
        let r = reactor(memory, c);
        if !joins(program, &seen, s, r) {
            return false;
        }
        put(&mut seen, r as usize, 1);
        last = c;
        c = next(memory, c);
    }
    c < 1
}

// The D slot at word i of o, which has to name a deployment of reactor x. This and the next are for a
// table that changes what `mono_sound` and `point_sound` are for one that stays.
fn sweep_mono(memory: &[u32], table: &mut [u8], o: u32, k: u8, i: usize, x: u8) -> bool
    requires placed { Placed o k table.old }
    requires i_bound { i < 18446744073709551615 }
    ensures { let m = memory.now in let t = table.old in let t₁ = table.new in
        ((p : List ℕ) (l : ℕ) → i ≡ M.slot p m o l → result ≡ true → SlotSwept p m o t t₁ l (C.deployment x)) }
{
    let v = pair(memory, i);
    if v.mark != Value::DEPLOYMENT {
        return false;
    }
    let c = v.content;
    let last = used(memory);
    if !link(table, o, k, last, c) {
        return false;
    }
    (reactor(memory, c) == x as u32) & (next(memory, c) == 0)
}

// The D slot at word i of o, which has to head a chain of shape x.
fn sweep_point(
    program: &[u8],
    memory: &[u32],
    table: &mut [u8],
    o: u32,
    k: u8,
    i: usize,
    x: u8,
) -> bool
    requires placed { Placed o k table.old }
    requires i_bound { i < 18446744073709551615 }
    ensures { let p = program.now in let m = memory.now in let t = table.old in
        let t₁ = table.new in
        ((l : ℕ) → i ≡ M.slot p m o l → result ≡ true → SlotSwept p m o t t₁ l (C.point x)) }
{
    let v = pair(memory, i);
    if v.mark != Value::POINT {
        return false;
    }
    let head = v.content;
    sweep_chain(program, memory, table, o, k, x, head)
}

// The D slot at word i of o, by what its command makes.
fn sweep_slot(
    program: &[u8],
    memory: &[u32],
    table: &mut [u8],
    o: u32,
    k: u8,
    i: usize,
    makes: Makes,
) -> bool
    requires placed { Placed o k table.old }
    requires i_bound { i < 18446744073709551615 }
    ensures { let p = program.now in let m = memory.now in let t = table.old in
        let t₁ = table.new in
        ((l : ℕ) → i ≡ M.slot p m o l → result ≡ true → SlotSwept p m o t t₁ l (made makes)) }
{
    match makes {
        Makes::Deployment(x) => sweep_mono(memory, table, o, k, i, x),
        Makes::Point(x) => sweep_point(program, memory, table, o, k, i, x),
        Makes::Cell(x) => legal(program, x, pair(memory, i)),
        Makes::Nothing => true,
    }
}

// All D slots of o, by the counts of its reactor.
fn sweep_slots(
    program: &[u8],
    memory: &[u32],
    table: &mut [u8],
    o: u32,
    k: u8,
    counts: Counts,
) -> bool
    requires placed { Placed o k table.old }
    requires tells { Tells program.now (M.reactor memory.now o) counts.word }
    ensures { let p = program.now in let m = memory.now in
        (result ≡ true → SlotsSwept p m o table.old table.new) }
{
    for j in 0..counts.commands_d() {
        let makes = makes_at(program, counts.at() as usize + 8 * j as usize);
        let i = o as usize + counts.slots_d() as usize + 2 * j as usize;
        if !sweep_slot(program, memory, table, o, k, i, makes) {
            return false;
        }
    }
    true
}

// Whether all slots but D slots of the deployment at a are zero, by the counts of its reactor.
fn clear_by(program: &[u8], memory: &[u32], a: u32, counts: Counts) -> bool
    requires { Tells program.now (M.reactor memory.now a) counts.word }
    ensures { result ≡ P.clear_at program.now memory.now a }
{
    zero_around(memory, a, counts.slots_d(), counts.slots_r(), counts.size())
}

// The deployment at a, by the counts of its reactor.
fn sweep_one(program: &[u8], memory: &[u32], table: &mut [u8], a: u32, counts: Counts) -> bool
    requires { Tells program.now (M.reactor memory.now a) counts.word }
    ensures placed { result ≡ true → Placed a (P.table_byte table.old a) table.old }
    ensures swept { let p = program.now in let m = memory.now in
        (result ≡ true → OwnSwept p m a table.old table.new) }
{
    let k = table_byte(table, a);
    if (k < LEAST) | (MOST < k) {
        return false;
    }
    if wired(memory, a) != 1 {
        return false;
    }
    if !clear_by(program, memory, a, counts) {
        return false;
    }
    sweep_slots(program, memory, table, a, k, counts)
}

// All deployments, main's byte being that of depth 1.
fn sweep_all(program: &[u8], facts: &[u64; 64], memory: &[u32], table: &mut [u8], u: u32) -> bool
    requires facts { Facts program.now facts.now }
    requires tiling { Tiling program.now memory.now u M.main_at }
    ensures { let p = program.now in let m = memory.now in
        (result ≡ true → Swept p m (starts_on p m u M.main_at) table.old table.new) }
{
    let mut a = MAIN_AT;
    // A walk and no range: the next deployment begins where this one ends.
    while a < u {
        let o = a;
        let counts = counts_at(facts, memory, o);
        if counts.none() {
            return false;
        }
        a = o + counts.size();
        if !sweep_one(program, memory, table, o, counts) {
            return false;
        }
    }
    true
}

// Marks where the deployments begin, as long as they tile the words from 2 up to u exactly.
fn mark_tiles(facts: &[u64; 64], memory: &[u32], table: &mut [u8], u: u32) -> bool
    requires { u ≤ length memory.now }
    ensures tiled { let m = memory.now in
        ((p : List ℕ) → Facts p facts.now → result ≡ true → P.tiles_from p m (length m) u M.main_at ≡ true) }
    ensures marked { let m = memory.now in let f = facts.now in let t = table.old in
        let t₁ = table.new in
        ((p : List ℕ) → Facts p f → result ≡ true → t₁ ≡ P.over (P.visit p m Starts) t (starts_on p m u M.main_at)) }
{
    let mut a = MAIN_AT;
    // A walk and no range: the next deployment begins where this one ends.
    while a < u {
        let counts = counts_at(facts, memory, a);
        if counts.none() {
            return false;
        }
        let size = counts.size();
        if u - a < size {
            return false;
        }
        mark_start(table, a);
        a += size;
    }
    a == u
}

// The first walk, over a table of zeros; then main is named.
fn begun(facts: &[u64; 64], memory: &[u32], table: &mut [u8], u: u32) -> bool
    requires { u ≤ length memory.now }
    ensures { let m = memory.now in let f = facts.now in
        ((p : List ℕ) → Facts p f → result ≡ true → Begun p m u table.old table.new) }
{
    if !mark_tiles(facts, memory, table, u) {
        return false;
    }
    put_table_byte(table, MAIN_AT, LEAST);
    true
}

// Whether word 1 and main's first and next are those of a grown image.
fn headed(program: &[u8], memory: &[u32], u: u32) -> bool
    requires { u ≡ M.used memory.now }
    ensures { result ≡ true → Headed program.now memory.now }
{
    let t = turns(memory);
    if (t < 1) | (MOST_TURNS < t) {
        return false;
    }
    main_first(program, memory, u) & (next(memory, MAIN_AT) == 0)
}

// The sweep, with a table of BYTES bytes, which stays out of the frame of a turn.
#[inline(never)]
fn sweep<const BYTES: usize>(program: &[u8], facts: &[u64; 64], memory: &[u32], u: u32) -> bool
    requires some { 0 < BYTES }
    requires few { BYTES ≤ P.table_bytes }
    requires facts { Facts program.now facts.now }
    requires u_value { u ≡ M.used memory.now }
    requires u_in_bounds { u ≤ length memory.now }
    ensures { result ≡ true → Grown program.now memory.now }
{
    let mut table = [0u8; BYTES];
    if !headed(program, memory, u) {
        return false;
    }
    if !begun(facts, memory, &mut table, u) {
        return false;
    }
    sweep_all(program, facts, memory, &mut table, u)
}

// Whether a grown image is sound, where a sweep can tell.
fn surely_sound(program: &[u8], facts: &[u64; 64], memory: &[u32]) -> bool
    requires { Facts program.now facts.now }
    ensures { result ≡ true → P.sound_of program.now memory.now ≡ (Ok tt) }
{
    let u = used(memory);
    let n = memory.len();
    if n < u as usize {
        return false;
    }
    if !zero_at(memory, u as usize, n - u as usize) {
        return false;
    }
    if u <= FEW_WORDS {
        return sweep::<FEW_BYTES>(program, facts, memory, u);
    }
    sweep::<TABLE_BYTES>(program, facts, memory, u)
}

// Whether an image is sound for a program, by a table of its facts. Where the sweep does not find it
// sound, the tests in their order decide.
pub fn sound_by(program: &[u8], facts: &[u64; 64], memory: &[u32]) -> Result<(), usize>
    requires { Facts program.now facts.now }
    ensures { result ≡ P.sound_of program.now memory.now }
{
    if surely_sound(program, facts, memory) {
        return Ok(());
    }
    sound(program, memory)
}
