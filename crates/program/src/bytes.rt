// The header, 8 bytes (format, shapes, reactors, globals, four zeros), and the kinds of the globals,
// which follow it.
#![tactic(auto, unfolding(crate::specs::Open::opened))]

ghost use Rattle.std.specs.Prelude.{◌≡◌, set};
ghost use Rattle.program.specs.Bytes as B;
ghost use Rattle.program.specs.Clauses.{header_of};

use crate::Header;

// The byte at `i`, and 0 past the end.
pub fn byte(program: &[u8], i: usize) -> u8
    ensures { result ≡ B.byte program.now i }
{
    program.get(i).copied().unwrap_or(0)
}

// Stores v at `i`, and nothing past the end. By the index, since std says of `get_mut` alone which element it
// lends, and not what the slice ends as.
pub fn put<T: Copy>(items: &mut [T], i: usize, v: T)
    ensures { items.new ≡ set items.old i v }
{
    if i < items.len() {
        items[i] = v;
    }
}

impl Header {
    pub const FORMAT: u8 = 1;

    pub const BYTES: u8 = 8;

    pub const MOST_BYTES: usize = 65535;

    pub const MOST_SHAPES: u8 = 32;

    pub const MOST_REACTORS: u8 = 64;

    pub const MOST_GLOBALS: u8 = 31;

    pub const MOST_SOURCES: u8 = 7;

    pub const MOST_SINKS: u8 = 7;

    pub const MOST_DECLARED: u8 = 32;

    pub const MOST_RUNNING: u8 = 128;

    pub const MOST_LOCATIONS: usize = 174;

    // The header of a program, legal or not.
    #[tactic(auto, unfolding(crate::specs::Clauses::header_of))]
    pub fn from_bytes(program: &[u8]) -> Header
        ensures { result ≡ header_of program.now }
    {
        Header {
            format: byte(program, 0),
            shapes: shapes(program),
            reactors: reactors(program),
            globals: globals(program),
        }
    }
}

pub fn shapes(program: &[u8]) -> u8
    ensures { result ≡ B.shapes program.now }
{
    byte(program, 1)
}

pub fn reactors(program: &[u8]) -> u8
    ensures { result ≡ B.reactors program.now }
{
    byte(program, 2)
}

pub fn globals(program: &[u8]) -> u8
    ensures { result ≡ B.globals program.now }
{
    byte(program, 3)
}

// The kind of global x. Global 0 is the time, a number.
pub fn global_kind(program: &[u8], x: u8) -> u8
    ensures { result ≡ B.global_kind program.now x }
{
    if x == 0 {
        return 0;
    }
    byte(program, 7 + x as usize)
}
