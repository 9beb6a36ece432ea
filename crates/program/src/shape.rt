// The shapes, 16 bytes each: source count, sink count, seven source kinds, seven sink kinds.
#![tactic(auto, unfolding(crate::specs::Open::opened))]

ghost use Rattle.std.specs.Prelude.{◌+◌, ◌<◌, ◌≡◌};
ghost use Rattle.program.specs.Bytes as B;

use crate::bytes::{byte, globals};

// The byte at which shape s stands; with s the count of shapes, the byte after them.
pub fn shape_at(program: &[u8], s: u8) -> u16
    ensures is { result ≡ B.shape_at program.now s }
    ensures small { result < 5000 }
{
    8 + globals(program) as u16 + 16 * (s as u16)
}

// Byte k of shape s.
fn shape_byte(program: &[u8], s: u8, k: u16) -> u8
    ensures { let p = program.now in
        result ≡ B.byte p (B.shape_at p s + k) }
{
    byte(program, shape_at(program, s) as usize + k as usize)
}

// How many sources a reactor of shape s has.
pub fn sources_in(program: &[u8], s: u8) -> u8
    ensures { result ≡ B.sources_in program.now s }
{
    shape_byte(program, s, 0)
}

// How many sinks.
pub fn sinks_in(program: &[u8], s: u8) -> u8
    ensures { result ≡ B.sinks_in program.now s }
{
    shape_byte(program, s, 1)
}

pub fn source_kind(program: &[u8], s: u8, x: u8) -> u8
    ensures { result ≡ B.source_kind program.now s x }
{
    shape_byte(program, s, 2 + x as u16)
}

pub fn sink_kind(program: &[u8], s: u8, x: u8) -> u8
    ensures { result ≡ B.sink_kind program.now s x }
{
    shape_byte(program, s, 9 + x as u16)
}
