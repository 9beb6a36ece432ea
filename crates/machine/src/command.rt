// 2.32 The commands that neither allocate nor have to do with cells, one function each. They are given
// the index of each slot's words: `here` is the command's own, a and b those of its operands. Where a
// command has a result, its own words are in memory, and no operand's lie past them.
ghost use Rattle.std.specs.Prelude.{ℕ, ◌+◌, ◌≤◌, ◌<◌, ◌≡◌, true, List, length, Ok};
ghost use Rattle.value.specs.Value as W;
ghost use Rattle.program.specs.Bytes as B;
ghost use Rattle.program.specs.Command as C;
ghost use Rattle.program.specs.Clauses.{Facts};
ghost use Rattle.program.specs.Location as L;
ghost use Rattle.image.specs.Memory as M;
ghost use Rattle.remus.specs.Exec as X;
ghost use Rattle.remus.specs.Turn as T;
ghost use Rattle.value.specs.Primitive as Op;
ghost use Rattle.value.specs.declared.Value.{Value};
ghost use Rattle.machine.specs.Clauses.{did, doing, Acts, Here, Placed, TimeFits};
ghost use Rattle.machine.specs.declared.Outcome.TheVariants.{Given};

use crate::Outcome;
use crate::places::Slots;
use image::{SLOTS_AT, counts_at, pair, pair_within, put_pair, put_pair_within, turns};
use program::mark_of;
use value::Value;

// The primitive that takes a third operand.
const CHOOSE: u8 = 11;

// The command gives v. All that give a value end so, each in a function of its own, so that the arms of exec are alike.
pub(crate) fn give(memory: &mut [u32], here: usize, v: Value) -> Outcome
    requires { here + 1 < length memory.old }
    ensures { let m = memory.old in
        ((p : List ℕ) (o l : ℕ) → here ≡ M.slot p m o l
        → did (Ok result) memory.new ≡ did (Ok Given) (M.store p m o l v)) }
{
    put_pair_within(memory, here, v);
    Outcome::Given
}

// The value v of kind x.
pub(crate) fn of_kind(x: u8, v: u32) -> Value
    ensures { result ≡ W.value (W.mark_of x) v }
{
    Value {
        mark: mark_of(x),
        content: v,
    }
}

// 3 Constant: the value v of kind x.
pub(crate) fn constant(memory: &mut [u32], here: usize, x: u8, v: u32) -> Outcome
    requires { here + 1 < length memory.old }
    ensures { let m = memory.old in
        ((p : List ℕ) (h o i : ℕ) → Here p m o i here
        → Acts p h m o i (C.gives (C.constant x v)) (Ok result) memory.new) }
{
    let given = of_kind(x, v);
    give(memory, here, given)
}

// Reading k, from 0.
pub(crate) fn reading_at(readings: &[u32], k: u8) -> Value
    ensures { result ≡ T.reading_at readings.now k }
{
    pair(readings, 2 * (k as usize))
}

// Global x: the time, or a reading.
fn global_value(readings: &[u32], memory: &[u32], x: u8) -> Value
    requires { TimeFits memory.now }
    ensures { result ≡ X.global_value readings.now memory.now x }
{
    if x < 1 {
        let t = turns(memory);
        return Value {
            mark: Value::NUMBER,
            content: t + 1,
        };
    }
    reading_at(readings, x - 1)
}

// 4 Global: global x.
pub(crate) fn global(readings: &[u32], memory: &mut [u32], here: usize, x: u8) -> Outcome
    requires here_in_bounds { here + 1 < length memory.old }
    requires time_fits { TimeFits memory.old }
    ensures { let m = memory.old in let rd = readings.now in
        ((p : List ℕ) (h o i : ℕ) → Here p m o i here
        → did (Ok result) memory.new ≡ doing p rd h m o i (C.gives (C.global x))) }
{
    let v = global_value(readings, memory, x);
    give(memory, here, v)
}

// 5 Supply: the value at a to source x of the deployment at b, where there is one. Sources come
// first in a deployment.
pub(crate) fn supply(memory: &mut [u32], x: u8, a: usize, b: usize) -> Outcome
    requires { (a < 8589934592) × (b < 8589934592) }
    ensures { let m = memory.old in
        ((p : List ℕ) (h o i j k : ℕ) → a ≡ M.slot p m o j → b ≡ M.slot p m o k
        → (X.there p m o k ≡ true → x < L.source_count p (M.reactor m (M.content p m o k)))
        → Acts p h m o i (C.supply x j k) (Ok result) memory.new) }
{
    let d = pair(memory, b);
    if d.mark != Value::DEPLOYMENT {
        return Outcome::Move;
    }
    let v = pair(memory, a);
    put_pair(memory, d.content as usize + SLOTS_AT + 2 * (x as usize), v);
    Outcome::Move
}

// 6 React: the deployment at b is to run, where there is one.
pub(crate) fn react(memory: &[u32], b: usize) -> Outcome
    requires { b < 8589934592 }
    ensures { let m = memory.now in
        ((p : List ℕ) (h o i k : ℕ) → b ≡ M.slot p m o k → Acts p h m o i (C.react k) (Ok result) m) }
{
    let d = pair(memory, b);
    if d.mark != Value::DEPLOYMENT {
        return Outcome::Move;
    }
    Outcome::Call(d.content)
}

// The index of sink x's words in the deployment at d.
pub(crate) fn sink_index(facts: &[u64; 64], memory: &[u32], d: u32, x: u8) -> usize
    ensures is { let m = memory.now in
        ((p : List ℕ) → Facts p facts.now → M.reactor m d < B.reactors p
        → result ≡ M.slot p m d (L.sink_loc p (M.reactor m d) x)) }
    ensures small { result < 8589934592 }
{
    d as usize + counts_at(facts, memory, d).sink_at(x) as usize
}

// 7 Consume: sink x of the deployment at b, blank where there is none.
pub(crate) fn consume(
    facts: &[u64; 64],
    memory: &mut [u32],
    here: usize,
    x: u8,
    b: usize,
) -> Outcome
    requires here_in_bounds { here + 1 < length memory.old }
    requires b_le_here { b ≤ here }
    ensures { let m = memory.old in
        ((p : List ℕ) (h o i k : ℕ) → Facts p facts.now → b ≡ M.slot p m o k → Here p m o i here
        → (X.there p m o k ≡ true → M.reactor m (M.content p m o k) < B.reactors p)
        → Acts p h m o i (C.gives (C.consume x k)) (Ok result) memory.new) }
{
    let d = pair_within(memory, b);
    if d.mark != Value::DEPLOYMENT {
        return give(memory, here, Value::blank());
    }
    let i = sink_index(facts, memory, d.content, x);
    let v = pair(memory, i);
    give(memory, here, v)
}

// 8 Sink: the value at a to own sink x.
pub(crate) fn sink(facts: &[u64; 64], memory: &mut [u32], o: u32, x: u8, a: usize) -> Outcome
    requires { a < 8589934592 }
    ensures { let m = memory.old in
        ((p : List ℕ) (h i j : ℕ) → Facts p facts.now → M.reactor m o < B.reactors p
        → a ≡ M.slot p m o j → Acts p h m o i (C.sink x j) (Ok result) memory.new) }
{
    let v = pair(memory, a);
    let i = sink_index(facts, memory, o, x);
    put_pair(memory, i, v);
    Outcome::Move
}

// The third operand of primitive x, which lies at location l; it is looked at where x takes it.
fn third(memory: &[u32], slots: &Slots, o: u32, x: u8, l: u8) -> Value
    ensures { let m = memory.now in
        ((p : List ℕ) (a b : Value) → Placed p (M.reactor m o) slots.now.before l
        → Op.primitive x a b result ≡ Op.primitive x a b (M.value_at p m o l)) }
{
    if x != CHOOSE {
        return Value::blank();
    }
    slots.operand(memory, o, l)
}

// 10 Primitive: x of the operands a, b and the one at location l.
pub(crate) fn primitive(
    memory: &mut [u32],
    slots: &Slots,
    o: u32,
    here: usize,
    x: u8,
    a: usize,
    b: usize,
    l: u8,
) -> Outcome
    requires here_in_bounds { here + 1 < length memory.old }
    requires a_le_here { (a ≤ here) × (b ≤ here) }
    ensures { let m = memory.old in let t = slots.now.before in
        ((p : List ℕ) (h i j k : ℕ) → a ≡ M.slot p m o j → b ≡ M.slot p m o k → Placed p (M.reactor m o) t l
        → Here p m o i here → Acts p h m o i (C.gives (C.primitive x j k l)) (Ok result) memory.new) }
{
    let first = pair_within(memory, a);
    let second = pair_within(memory, b);
    let last = third(memory, slots, o, x, l);
    let v = value::primitive(x, first, second, last);
    give(memory, here, v)
}
