// The commands that allocate: AllocMono and AllocPoly. A new deployment stands one deeper than its
// owner: past the limit of depths the turn ends with 15, and else, where it does not fit the words that
// are left, with 14.
ghost use Rattle.std.specs.Prelude.{ℕ, ◌+◌, ◌≤◌, ◌<◌, ◌≡◌, true, false, List, length, MatchOption, Ok};
ghost use Rattle.value.specs.Test.{◌≤?◌};
ghost use Rattle.value.specs.Value as W;
ghost use Rattle.program.specs.Bytes as B;
ghost use Rattle.program.specs.Command as C;
ghost use Rattle.program.specs.Clauses.{Facts};
ghost use Rattle.program.specs.Location as L;
ghost use Rattle.image.specs.Memory as M;
ghost use Rattle.remus.specs.Exec as X;
ghost use Rattle.machine.specs.Clauses.{did, acted, Acts, Declares, Here, Stands};

use crate::Outcome;
use crate::accepted::Accepted;
use crate::command::give;
use answer::Refusal;
use image::{MOST_DEPTH, next, pair_within, put_pair, reactor, set_used, used, word};
use program::{fact, put, reactors};
use value::Value;

// Whether so many words are left behind u.
fn room(memory: &[u32], size: u32) -> bool
    ensures { let m = memory.now in
        result ≡ (M.used m + size ≤? length m) }
{
    used(memory) as usize + size as usize <= memory.len()
}

// A new deployment of reactor r, of this size, for which there is room.
fn place_new(memory: &mut [u32], r: u32, old: u32, size: u32)
    requires memory_len_bound { length memory.old ≤ M.most_words }
    requires size_in_bounds { M.used memory.old + size ≤ length memory.old }
    ensures { let m = memory.old in
        ((p : List ℕ) → size ≡ L.size_of p r → memory.new ≡ M.deploy p m r old) }
{
    let u = used(memory);
    put(memory, u as usize, r);
    put(memory, u as usize + 1, 0);
    put(memory, u as usize + 2, old);
    set_used(memory, u + size)
}

// 1 AllocMono: a new deployment of reactor x.
pub(crate) fn alloc_mono(
    facts: &[u64; 64],
    memory: &mut [u32],
    h: u8,
    here: usize,
    x: u8,
) -> Result<(), Refusal>
    requires here_bound { here < 8589934592 }
    requires memory_len_bound { length memory.old ≤ M.most_words }
    ensures { let m = memory.old in
        ((p : List ℕ) (o i : ℕ) → Facts p facts.now → x < B.reactors p
        → Stands m o → Here p m o i here → Declares p h m o i (C.alloc_mono x) result memory.new) }
{
    if MOST_DEPTH <= h {
        return Err(Refusal::TooDeep(x as usize));
    }
    let size = fact(facts, x as u32).size();
    if !room(memory, size) {
        return Err(Refusal::NoRoom(x as usize));
    }
    let u = used(memory);
    place_new(memory, x as u32, 0, size);
    put_pair(
        memory,
        here,
        Value {
            mark: Value::DEPLOYMENT,
            content: u,
        },
    );
    Ok(())
}

// The deployment of reactor q on the chain from `head`, if there is one.
fn find(program: &[u8], memory: &[u32], q: u32, head: u32) -> Option<u32>
    ensures { let found = X.find (B.reactors program.now) memory.now q head in
        MatchOption result (found ≡ 0) (λ d. (0 < d) × (found ≡ d)) }
{
    let mut c = head;
    for _i in 0..reactors(program) {
        if c == 0 {
            return None;
        }
        if reactor(memory, c) == q {
            return Some(c);
        }
        c = next(memory, c);
    }
    None
}

// The new deployment at u is the newest of the branch point at b, and the command's.
fn branch(memory: &mut [u32], here: usize, q: u32, b: usize, size: u32) -> Outcome
    requires here_in_bounds { here + 1 < length memory.old }
    requires b_le_here { b ≤ here }
    requires memory_len_bound { length memory.old ≤ M.most_words }
    requires size_in_bounds { M.used memory.old + size ≤ length memory.old }
    ensures { let m = memory.old in
        ((p rd : List ℕ) (h o i j k : ℕ) → size ≡ L.size_of p q → Stands m o → b ≡ M.slot p m o k → Here p m o i here
        → did (Ok result) memory.new ≡ acted m (C.alloc_poly j k) (X.branched p rd h m o i false true q k)) }
{
    let u = used(memory);
    let head = word(memory, b + 1);
    place_new(memory, q, head, size);
    put_pair(
        memory,
        b,
        Value {
            mark: Value::POINT,
            content: u,
        },
    );
    give(
        memory,
        here,
        Value {
            mark: Value::DEPLOYMENT,
            content: u,
        },
    )
}

// A deployment of reactor q on the branch point at b, where none is.
fn make(
    facts: &[u64; 64],
    memory: &mut [u32],
    h: u8,
    here: usize,
    q: u32,
    b: usize,
) -> Result<Outcome, Refusal>
    requires here_in_bounds { here + 1 < length memory.old }
    requires b_le_here { b ≤ here }
    requires memory_len_bound { length memory.old ≤ M.most_words }
    ensures { let m = memory.old in
        ((p rd : List ℕ) (o i j k : ℕ) → Facts p facts.now
        → q < B.reactors p
        → Stands m o → b ≡ M.slot p m o k → Here p m o i here
        → did result memory.new ≡ acted m (C.alloc_poly j k) (X.chosen p rd h m o i 0 q k)) }
{
    if MOST_DEPTH <= h {
        return Err(Refusal::TooDeep(q as usize));
    }
    let size = fact(facts, q).size();
    if !room(memory, size) {
        return Err(Refusal::NoRoom(q as usize));
    }
    Ok(branch(memory, here, q, b, size))
}

impl Accepted<'_> {
    // The deployment of reactor q on the branch point at b, made if missing.
    fn choose(
        self,
        memory: &mut [u32],
        h: u8,
        here: usize,
        q: u32,
        b: usize,
    ) -> Result<Outcome, Refusal>
        requires here_in_bounds { here + 1 < length memory.old }
        requires b_le_here { b ≤ here }
        requires memory_len_bound { length memory.old ≤ M.most_words }
        ensures { let p = self.entry.program.now in let m = memory.old in
            ((rd : List ℕ) (o i j k : ℕ) → q < B.reactors p
            → Stands m o → b ≡ M.slot p m o k → Here p m o i here
            → did result memory.new ≡ acted m (C.alloc_poly j k) (X.operated p rd h m o i false q k)) }
    {
        let newest = word(memory, b + 1);
        match find(self.program, memory, q, newest) {
            None => make(self.facts, memory, h, here, q, b),
            Some(d) => Ok(give(
                memory,
                here,
                Value {
                    mark: Value::DEPLOYMENT,
                    content: d,
                },
            )),
        }
    }

    // 9 AllocPoly: the deployment of the operator's reactor, at a, on the branch point at b; blank for a
    // blank operator.
    pub(crate) fn alloc_poly(
        self,
        memory: &mut [u32],
        h: u8,
        here: usize,
        a: usize,
        b: usize,
    ) -> Result<Outcome, Refusal>
        requires here_in_bounds { here + 1 < length memory.old }
        requires a_le_here { (a ≤ here) × (b ≤ here) }
        requires memory_len_bound { length memory.old ≤ M.most_words }
        ensures { let p = self.entry.program.now in let m = memory.old in
            ((o i j k : ℕ) → Stands m o
            → a ≡ M.slot p m o j → b ≡ M.slot p m o k → Here p m o i here
            → (W.is_blank (M.value_at p m o j) ≡ false → M.content p m o j < B.reactors p)
            → Acts p h m o i (C.alloc_poly j k) result memory.new) }
    {
        let q = pair_within(memory, a);
        if q.mark == Value::BLANK {
            return Ok(give(memory, here, Value::blank()));
        }
        self.choose(memory, h, here, q.content, b)
    }
}
