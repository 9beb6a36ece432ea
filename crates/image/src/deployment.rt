// 3.5, 6.12 The slots of a deployment, and a new deployment.
ghost use Rattle.std.specs.Prelude.{◌+◌, ◌-◌, ◌≤◌, ◌<◌, ◌≡◌, set};
ghost use Rattle.value.specs.Test.{◌and◌};
ghost use Rattle.program.specs.Location as L;
ghost use Rattle.image.specs.Memory as M;
ghost use Rattle.image.specs.Clauses.{deploy_fits};

use crate::words::{SLOTS_AT, pair, reactor, set_used, used, word};
use crate::zero::zero_at;
use program::{HEAD_WORDS, put, size_of, slot_at};
use value::Value;

// The index of location l's two words, in the deployment at a.
pub fn slot(program: &[u8], memory: &[u32], a: u32, l: u16) -> usize
    ensures is { result ≡ M.slot program.now memory.now a l }
    ensures small { result < 8589934592 }
{
    let r = reactor(memory, a);
    a as usize + slot_at(program, r, l) as usize
}

// The mark of location l, in the deployment at a.
pub fn mark(program: &[u8], memory: &[u32], a: u32, l: u16) -> u32
    ensures { result ≡ M.mark program.now memory.now a l }
{
    let i = slot(program, memory, a, l);
    word(memory, i)
}

// The content beside it.
pub fn content(program: &[u8], memory: &[u32], a: u32, l: u16) -> u32
    ensures { result ≡ M.content program.now memory.now a l }
{
    let i = slot(program, memory, a, l);
    word(memory, i + 1)
}

// Both, as a value.
pub fn value_at(program: &[u8], memory: &[u32], a: u32, l: u16) -> Value
    ensures { result ≡ M.value_at program.now memory.now a l }
{
    let i = slot(program, memory, a, l);
    pair(memory, i)
}

// The words of the deployment at a.
pub fn size_at(program: &[u8], memory: &[u32], a: u32) -> u32
    ensures is { result ≡ M.size_at program.now memory.now a }
    ensures small { result < 131074 }
{
    let r = reactor(memory, a);
    size_of(program, r)
}

// Whether all slots of the deployment at a are zero but those from its word `first` up to `end`, of
// `size` words.
pub(crate) fn zero_around(memory: &[u32], a: u32, first: u32, end: u32, size: u32) -> bool
    requires head { 3 ≤ first }
    requires tail { end ≤ size }
    ensures { let m = memory.now in
        result ≡ (M.zero_at m (a + 3) (first - 3) and M.zero_at m (a + end) (size - end)) }
{
    let a = a as usize;
    zero_at(memory, a + SLOTS_AT, (first - HEAD_WORDS) as usize)
        & zero_at(memory, a + end as usize, (size - end) as usize)
}

// The three words of an unwired deployment at u, and u after it.
fn put_header(memory: &mut [u32], u: u32, r: u32, old: u32, end: u32)
    ensures { let m = memory.old in
        memory.new ≡ M.with_used (set (set (set m u r) (u + 1) 0) (u + 2) old) end }
{
    put(memory, u as usize, r);
    put(memory, u as usize + 1, 0);
    put(memory, u as usize + 2, old);
    set_used(memory, end)
}

// A new deployment of reactor r at u, on a branch point with the old head as its next. Its slots stay
// as they are, in a sound image zero. Nothing, where u after it would not fit a word.
pub fn deploy(program: &[u8], memory: &mut [u32], r: u32, old: u32)
    ensures is { memory.new ≡ deploy_fits program.now memory.old r old }
    ensures small { L.size_of program.now r < 131074 }
{
    let u = used(memory);
    let end = u as u64 + size_of(program, r) as u64;
    if end <= 4294967295 {
        put_header(memory, u, r, old, end as u32);
    }
}
