// Commands, 8 bytes each:
//
//     code | x | a | b | v0 v1 v2 v3, low byte first
ghost use Rattle.std.specs.Prelude.{◌+◌, ◌≤◌, ◌≡◌, length};
ghost use Rattle.program.specs.Command as C;
ghost use Rattle.program.specs.Clauses.{row_of};
ghost use Rattle.program.specs.declared.Command.{Command};

use crate::Command;
use crate::bytes::byte;

// What a command does, by its first byte: beside each the sequence that it belongs to, and what it reads of the others.
#[derive(Clone, Copy, Debug, PartialEq, Eq)]
pub enum Code {
    // D  x reactor
    AllocMono = 1,
    // D  x shape
    MakePoly = 2,
    // R  x kind, v value
    Constant = 3,
    // R  x global
    Global = 4,
    // R  x source, a value, b deployment
    Supply = 5,
    // R  b deployment
    React = 6,
    // R  x sink, b deployment
    Consume = 7,
    // R  x own sink, a value
    Sink = 8,
    // R  a operator, b branch point
    AllocPoly = 9,
    // R  x primitive, a b v0 operands
    Primitive = 10,
    // D  x kind, v first content
    Cell = 11,
    // R  b cell
    Fetch = 12,
    // R  a value, b cell
    Keep = 13,
}

// A byte that is no command's.
#[derive(Clone, Copy, Debug, PartialEq, Eq)]
pub struct UnknownCode;

impl TryFrom<u8> for Code {
    ghost use Rattle.program.specs.Clauses.{Codes};

    type Error = UnknownCode;

    ghost try_from_gives = { Codes };

    fn try_from(byte: u8) -> Result<Self, UnknownCode> {
        match byte {
            1 => Ok(Code::AllocMono),
            2 => Ok(Code::MakePoly),
            3 => Ok(Code::Constant),
            4 => Ok(Code::Global),
            5 => Ok(Code::Supply),
            6 => Ok(Code::React),
            7 => Ok(Code::Consume),
            8 => Ok(Code::Sink),
            9 => Ok(Code::AllocPoly),
            10 => Ok(Code::Primitive),
            11 => Ok(Code::Cell),
            12 => Ok(Code::Fetch),
            13 => Ok(Code::Keep),
            _ => Err(UnknownCode),
        }
    }
}

impl Code {
    // Whether such a command has a result.
    #[tactic(auto, unfolding(crate::specs::Command::takes_words))]
    pub fn has_result(self) -> bool
        ensures { (c : Command) → result ≡ C.takes_words (row_of self c) }
    {
        match self {
            Code::Supply | Code::React | Code::Sink => false,
            _ => true,
        }
    }
}

// The codes as bytes.
impl Command {
    pub const ALLOC_MONO: u8 = Code::AllocMono as u8;

    pub const MAKE_POLY: u8 = Code::MakePoly as u8;

    pub const CONSTANT: u8 = Code::Constant as u8;

    pub const GLOBAL: u8 = Code::Global as u8;

    pub const SUPPLY: u8 = Code::Supply as u8;

    pub const REACT: u8 = Code::React as u8;

    pub const CONSUME: u8 = Code::Consume as u8;

    pub const SINK: u8 = Code::Sink as u8;

    pub const ALLOC_POLY: u8 = Code::AllocPoly as u8;

    pub const PRIMITIVE: u8 = Code::Primitive as u8;

    pub const CELL: u8 = Code::Cell as u8;

    pub const FETCH: u8 = Code::Fetch as u8;

    pub const KEEP: u8 = Code::Keep as u8;

    // The number that the four bytes v make.
    pub fn v(self) -> u32
        ensures { result ≡ C.v_of self }
    {
        u32::from_le_bytes([self.v0, self.v1, self.v2, self.v3])
    }
}

// The place `at`, or the program's end if it lies past it: the bytes from there on are the same.
#[tactic(auto, using(crate::proofs::Past::same_nearest))]
fn at_or_end(program: &[u8], at: u64) -> usize
    ensures same { let p = program.now in
        C.bytes_at p result ≡ C.bytes_at p at }
    ensures inside { result ≤ length program.now }
{
    at.min(program.len() as u64) as usize
}

// The eight bytes from byte i on, where the program has them all. As an array the compiler reads them at once.
#[tactic(auto, unfolding(crate::specs::Open::opened))]
pub fn bytes_within(program: &[u8], i: usize) -> Command
    requires { i + 8 ≤ length program.now }
    ensures { result ≡ C.bytes_at program.now i }
{
    let bytes: [u8; 8] = program[i..i + 8].try_into().unwrap();
    let [code, x, a, b, v0, v1, v2, v3] = bytes;
    Command {
        code,
        x,
        a,
        b,
        v0,
        v1,
        v2,
        v3,
    }
}

// The same at the program's end and past it.
#[tactic(auto, unfolding(crate::specs::Command::bytes_at))]
fn bytes_near_end(program: &[u8], at: u64) -> Command
    ensures { result ≡ C.bytes_at program.now at }
{
    let i = at_or_end(program, at);
    Command {
        code: byte(program, i),
        x: byte(program, i + 1),
        a: byte(program, i + 2),
        b: byte(program, i + 3),
        v0: byte(program, i + 4),
        v1: byte(program, i + 5),
        v2: byte(program, i + 6),
        v3: byte(program, i + 7),
    }
}

// The eight bytes from byte `at` on.
pub fn bytes_at(program: &[u8], at: u64) -> Command
    ensures { result ≡ C.bytes_at program.now at }
{
    let n = program.len() as u64;
    if 8 <= n && at <= n - 8 {
        return bytes_within(program, at as usize);
    }
    bytes_near_end(program, at)
}
