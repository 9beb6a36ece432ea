// The deployments one after the other: they tile the words from 2 to u.
ghost use Rattle.std.specs.Prelude.{ℕ, ◌≤◌, ◌<◌, ◌≡◌, ◌≢◌, List, length};
ghost use Rattle.program.specs.Bytes as B;
ghost use Rattle.program.specs.Clauses.{Facts, Tells};
ghost use Rattle.image.specs.Memory as M;
ghost use Rattle.image.specs.Passes as P;
ghost use Rattle.image.specs.Clauses.{Follows, Tiling};

use crate::deployment::size_at;
use crate::words::{MAIN_AT, reactor};
use program::{Counts, fact, reactors};

// Whether deployments tile the words from 2 up to u exactly.
pub(crate) fn tiles(program: &[u8], memory: &[u32], u: u32) -> bool
    requires { u ≤ length memory.now }
    ensures { let p = program.now in let m = memory.now in
        result ≡ P.tiles_from p m (length m) u M.main_at }
{
    let n = reactors(program) as u32;
    let mut a = MAIN_AT;
    // A walk and no range: the next deployment begins where this one ends.
    while a < u {
        if n <= reactor(memory, a) {
            return false;
        }
        let size = size_at(program, memory, a);
        if u - a < size {
            return false;
        }
        a += size;
    }
    a == u
}

// Where the deployment at a ends.
pub(crate) fn following(program: &[u8], memory: &[u32], u: u32, a: u32) -> u32
    requires tiling { Tiling program.now memory.now u a }
    requires a_lt_u { a < u }
    ensures { Follows program.now memory.now u a result }
{
    a + size_at(program, memory, a)
}

// What a table has of the reactor of the deployment at a.
pub fn counts_at(facts: &[u64; 64], memory: &[u32], a: u32) -> Counts
    ensures right { let r = M.reactor memory.now a in
        ((p : List ℕ) → Facts p facts.now → result.word ≢ 0 → Tells p r result.word) }
    ensures legal { let r = M.reactor memory.now a in
        ((p : List ℕ) → Facts p facts.now → result.word ≢ 0 → r < B.reactors p) }
    ensures known { let r = M.reactor memory.now a in
        ((p : List ℕ) → Facts p facts.now → r < B.reactors p → Tells p r result.word) }
{
    let r = reactor(memory, a);
    fact(facts, r)
}
