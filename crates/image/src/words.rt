// Words by their index, and by what they are.
ghost use Rattle.std.specs.Prelude.{◌+◌, ◌<◌, ◌≡◌, length, set};
ghost use Rattle.value.specs.Value.{value};
ghost use Rattle.image.specs.Memory as M;

use program::{HEAD_WORDS, put};
use value::Value;

pub const MAIN_AT: u32 = 2;

// Where a deployment's slots begin, from its first word.
pub const SLOTS_AT: usize = HEAD_WORDS as usize;

pub const FEWEST_WORDS: usize = 2;

pub const MOST_WORDS: usize = 16384;

pub const MOST_TURNS: u32 = 2147483647;

pub const MOST_DEPTH: u8 = 64;

// The word at `i`, and 0 past the end.
pub fn word(memory: &[u32], i: usize) -> u32
    ensures { result ≡ M.word memory.now i }
{
    memory.get(i).copied().unwrap_or(0)
}

// The two words from `i` on, which are there, as a value.
pub fn pair_within(memory: &[u32], i: usize) -> Value
    requires { i + 1 < length memory.now }
    ensures { let m = memory.now in
        result ≡ value (M.word m i) (M.word m (i + 1)) }
{
    Value {
        mark: memory[i],
        content: memory[i + 1],
    }
}

// Stores both.
pub fn put_pair_within(memory: &mut [u32], i: usize, v: Value)
    requires { i + 1 < length memory.old }
    ensures { memory.new ≡ set (set memory.old i v.mark) (i + 1) v.content }
{
    memory[i] = v.mark;
    memory[i + 1] = v.content;
}

// The two words from `i` on, as a value: 0 past the end. One test for both, since a machine reads little
// else.
pub fn pair(memory: &[u32], i: usize) -> Value
    requires { i < 18446744073709551615 }
    ensures { let m = memory.now in
        result ≡ value (M.word m i) (M.word m (i + 1)) }
{
    if i + 1 < memory.len() {
        return pair_within(memory, i);
    }
    Value {
        mark: word(memory, i),
        content: 0,
    }
}

// Stores both, and nothing past the end.
pub fn put_pair(memory: &mut [u32], i: usize, v: Value)
    requires { i < 18446744073709551615 }
    ensures { memory.new ≡ set (set memory.old i v.mark) (i + 1) v.content }
{
    if i + 1 < memory.len() {
        put_pair_within(memory, i, v);
        return;
    }
    put(memory, i, v.mark)
}

// u, the count of used words.
pub fn used(memory: &[u32]) -> u32
    ensures { result ≡ M.used memory.now }
{
    word(memory, 0)
}

// The completed turns.
pub fn turns(memory: &[u32]) -> u32
    ensures { result ≡ M.turns memory.now }
{
    word(memory, 1)
}

// The reactor of the deployment at a.
pub fn reactor(memory: &[u32], a: u32) -> u32
    ensures { result ≡ M.reactor memory.now a }
{
    word(memory, a as usize)
}

// 1 once its D commands have run, 0 before.
pub fn wired(memory: &[u32], a: u32) -> u32
    ensures { result ≡ M.wired memory.now a }
{
    word(memory, a as usize + 1)
}

// The next deployment on the chain, and 0 at its end.
pub fn next(memory: &[u32], a: u32) -> u32
    ensures { result ≡ M.next memory.now a }
{
    word(memory, a as usize + 2)
}

// Stores u.
pub fn set_used(memory: &mut [u32], u: u32)
    ensures { memory.new ≡ M.with_used memory.old u }
{
    put(memory, 0, u)
}

// Stores the completed turns.
pub fn set_turns(memory: &mut [u32], t: u32)
    ensures { memory.new ≡ M.with_turns memory.old t }
{
    put(memory, 1, t)
}

// Stores whether the deployment at a is wired.
pub fn set_wired(memory: &mut [u32], a: u32, w: u32)
    ensures { memory.new ≡ M.with_wired memory.old a w }
{
    put(memory, a as usize + 1, w)
}
