// 2.14, 2.46 to 2.48 Locations of a reactor, and the words that a deployment takes.
ghost use Rattle.std.specs.Prelude.{ℕ, ◌≤◌, ◌<◌, ◌≡◌};
ghost use Rattle.value.specs.Test.{pick};
ghost use Rattle.program.specs.Bytes as B;
ghost use Rattle.program.specs.Command as C;
ghost use Rattle.program.specs.Location as L;
ghost use Rattle.program.specs.declared.Command.{Command};

use crate::Header;
use crate::bytes::byte;
use crate::commands::{Code, UnknownCode};
use crate::entry::{commands_at, commands_d, commands_in, commands_r, shape_of};
use crate::shape::{sinks_in, sources_in};

// The most locations that a reactor has.
pub const MOST_LOCATIONS: usize = Header::MOST_LOCATIONS;

// The words of a deployment before its slots: reactor, wired, next.
pub const HEAD_WORDS: u32 = 3;

// How many sources reactor r has.
#[tactic(auto, unfolding(crate::specs::Location::source_count))]
pub fn source_count(program: &[u8], r: u32) -> u8
    ensures { result ≡ L.source_count program.now r }
{
    sources_in(program, shape_of(program, r))
}

// How many sinks.
#[tactic(auto, unfolding(crate::specs::Location::sink_count))]
pub fn sink_count(program: &[u8], r: u32) -> u8
    ensures { result ≡ L.sink_count program.now r }
{
    sinks_in(program, shape_of(program, r))
}

// The location of own sink x.
#[tactic(auto, unfolding(crate::specs::Location::sink_loc))]
pub fn sink_loc(program: &[u8], r: u32, x: u8) -> u16
    ensures { result ≡ L.sink_loc program.now r x }
{
    source_count(program, r) as u16 + commands_in(program, r) + x as u16
}

// 1 for a command that has a result, and so takes words in memory; 0 for Supply, React and Sink.
pub fn result_of(code: u8) -> u8
    ensures is { (c : Command) → c.code ≡ code → result ≡ pick (C.takes_words (C.decode c)) 1 0 }
    ensures one { result < 2 }
{
    match Code::try_from(code) {
        Ok(code) => code.has_result() as u8,
        Err(UnknownCode) => 1,
    }
}

// How many of the n R commands from byte `at` on have a result.
fn results_from(program: &[u8], at: u64, n: u8) -> u8
    requires { at < 30000000000000 }
    ensures is { let p = program.now in
        ((r : ℕ) → at ≡ B.command_at p r (B.commands_d p r) → result ≡ L.results p r n) }
    ensures few { result ≤ n }
{
    let i = at as usize;
    let mut m: u8 = 0;
    for j in 0..n {
        m += result_of(byte(program, i + 8 * j as usize));
    }
    m
}

// How many of the first n R commands of reactor r have a result.
#[tactic(auto, unfolding(crate::specs::Bytes::command_at))]
fn results(program: &[u8], r: u32, n: u8) -> u8
    ensures is { result ≡ L.results program.now r n }
    ensures few { result ≤ n }
{
    let at = commands_at(program, r) + 8 * (commands_d(program, r) as u64);
    results_from(program, at, n)
}

// Where the words of location l begin, from the deployment's first: after three (reactor, wired,
// next), and two (mark, content) for each location before l that has words.
pub fn slot_at(program: &[u8], r: u32, l: u16) -> u32
    ensures is { result ≡ L.slot_at program.now r l }
    ensures small { result < 131074 }
{
    let first = source_count(program, r) as u16 + commands_d(program, r) as u16;
    if l <= first {
        return HEAD_WORDS + 2 * (l as u32);
    }
    let past = l - first;
    let run = commands_r(program, r);
    if past <= run as u16 {
        return HEAD_WORDS + 2 * (first as u32 + results(program, r, past as u8) as u32);
    }
    HEAD_WORDS + 2 * (first as u32 + results(program, r, run) as u32 + (past - run as u16) as u32)
}

// The words that a deployment of reactor r takes.
pub fn size_of(program: &[u8], r: u32) -> u32
    ensures is { result ≡ L.size_of program.now r }
    ensures small { result < 131074 }
{
    let ports = source_count(program, r) as u32 + sink_count(program, r) as u32;
    let run = commands_r(program, r);
    HEAD_WORDS + 2 * (ports + commands_d(program, r) as u32 + results(program, r, run) as u32)
}
