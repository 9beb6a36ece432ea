// The bytecode of a program: its header, its tables and its commands, read straight off the bytes.
// Section 2 of the manual.
//
// Every function is total: a byte past the end is 0, so no caller has to know that a program is
// accepted. Result types are as narrow as the counts allow, so that sums of them cannot wrap.
#![tactic(auto)]

mod bytes;
mod commands;
mod entry;
mod facts;
mod kind;
mod location;
mod shape;

pub use bytes::{byte, global_kind, globals, put, reactors, shapes};
pub use commands::{Code, UnknownCode, bytes_at, bytes_within};
pub use entry::{
    commands_at, commands_d, commands_in, commands_r, entry_at, main_of, shape_of, tables_end,
    whole_length,
};
pub use facts::fact;
pub use kind::{content_legal, legal, mark_of};
pub use location::{
    HEAD_WORDS, MOST_LOCATIONS, result_of, sink_count, sink_loc, size_of, slot_at, source_count,
};
pub use shape::{shape_at, sink_kind, sinks_in, source_kind, sources_in};

// What a program's first bytes say: the format, and how many shapes, reactors and outside globals
// there are.
#[derive(Clone, Copy)]
pub struct Header {
    pub format: u8,
    pub shapes: u8,
    pub reactors: u8,
    pub globals: u8,
}

// The eight bytes of a command. The definitions of specs/ speak of this struct.
#[derive(Clone, Copy)]
pub struct Command {
    pub code: u8,
    pub x: u8,
    pub a: u8,
    pub b: u8,
    pub v0: u8,
    pub v1: u8,
    pub v2: u8,
    pub v3: u8,
}

// What is asked of a reactor most often, in one number: see facts.rt.
#[derive(Clone, Copy)]
pub struct Counts {
    pub word: u64,
}
