// The entries of the reactors, 4 bytes each: shape, D commands, R commands, zero. The commands
// follow, reactor by reactor, 8 bytes each. The last reactor is main.
//
// A reactor's number is any word: where no reactor has it, an entry is what the bytes there say, 0
// past the end.
#![tactic(auto, unfolding(crate::specs::Open::opened))]

ghost use Rattle.std.specs.Prelude.{◌+◌, ◌*◌, ◌≤◌, ◌<◌, ◌≡◌};
ghost use Rattle.program.specs.Bytes as B;

use crate::bytes::{byte, reactors, shapes};
use crate::shape::shape_at;

// The byte at which the entry of reactor r stands.
pub fn entry_at(program: &[u8], r: u32) -> usize
    ensures is { result ≡ B.entry_at program.now r }
    ensures small { result < 5000 + 4 * r }
{
    shape_at(program, shapes(program)) as usize + 4 * r as usize
}

// Byte k of the entry.
fn entry_byte(program: &[u8], r: u32, k: u8) -> u8
    ensures { let p = program.now in
        result ≡ B.byte p (B.entry_at p r + k) }
{
    byte(program, entry_at(program, r) + k as usize)
}

pub fn shape_of(program: &[u8], r: u32) -> u8
    ensures { result ≡ B.shape_of program.now r }
{
    entry_byte(program, r, 0)
}

// How many D commands reactor r has.
pub fn commands_d(program: &[u8], r: u32) -> u8
    ensures { result ≡ B.commands_d program.now r }
{
    entry_byte(program, r, 1)
}

// How many R commands.
pub fn commands_r(program: &[u8], r: u32) -> u8
    ensures { result ≡ B.commands_r program.now r }
{
    entry_byte(program, r, 2)
}

pub fn commands_in(program: &[u8], r: u32) -> u16
    ensures is { result ≡ B.commands_in program.now r }
    ensures few { result ≤ 255 + 255 }
{
    commands_d(program, r) as u16 + commands_r(program, r) as u16
}

// The last reactor.
pub fn main_of(program: &[u8]) -> u8
    ensures { result ≡ B.main_of program.now }
{
    reactors(program).saturating_sub(1)
}

// The byte after the tables.
pub fn tables_end(program: &[u8]) -> u16
    ensures { result ≡ B.tables_end program.now }
{
    entry_at(program, reactors(program) as u32) as u16
}

// The byte at which the commands of reactor r begin: the sum over the entries before.
pub fn commands_at(program: &[u8], r: u32) -> u64
    ensures is { result ≡ B.commands_at program.now r }
    ensures small { result < 20000000000000 }
{
    let mut at = tables_end(program) as u64;
    for i in 0..r {
        at += 8 * commands_in(program, i) as u64;
    }
    at
}

// The length that the counts call for.
pub fn whole_length(program: &[u8]) -> u64
    ensures { result ≡ B.whole_length program.now }
{
    commands_at(program, reactors(program) as u32)
}
