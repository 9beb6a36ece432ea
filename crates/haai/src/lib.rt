// 8.12 Haai text to bytecode.
//
// The text is read three times, each time word by word from its first byte: for its form (16), for its
// names and counts (17), and, where it is accepted and there is room, to write its bytes. No word is
// kept but by its place in the text.
#![tactic(auto)]

mod calls;
mod grammar;
mod grove;
mod learn;
mod measure;
mod names;
mod pass;
mod tables;
mod word;
mod write;

pub use calls::compile;

// The signs + - * /, which stand for the primitives 0 to 3.
#[derive(Clone, Copy, PartialEq, Eq)]
pub enum Sign {
    Plus,
    Minus,
    Times,
    Divide,
}

// The words that no name can be.
#[derive(Clone, Copy, PartialEq, Eq)]
pub enum Taken {
    Time,
    Defr,
    Out,
    Source,
}

// What a word is by its bytes alone: a bracket, a sign, a number in two's complement, a word that is
// taken, a name, or none of these.
#[derive(Clone, Copy, PartialEq, Eq)]
pub enum Class {
    Open,
    Shut,
    Sign(Sign),
    Number(u32),
    Taken(Taken),
    Name,
    Other,
}

// Which word or bracket the form can take next.
#[derive(Clone, Copy, PartialEq, Eq)]
pub enum Phase {
    Top,
    Form,
    SourceName,
    SourceEnd,
    Head,
    ReactorName,
    Parameters,
    Body,
    First,
    Out,
    Operator,
    Operands,
    End,
}

// How far the form has been read: the forms so far, the parameters or expressions of the present one,
// the open brackets of the present expression, and whether the body is an `out`.
#[derive(Clone, Copy)]
pub struct Reading {
    pub phase: Phase,
    pub sources: u8,
    pub definitions: u8,
    pub count: u8,
    pub depth: u8,
    pub many: bool,
}

// What a word is in the form.
#[derive(Clone, Copy)]
pub enum Role {
    Source,
    Reactor,
    Parameter,
    Operand,
    Constant(u32),
    Operator,
    Apply,
    Define,
    Fixed,
}

// What is known of names after some words: the lowest byte at fault; how many sources, reactors and
// parameters have a name; where the present reactor's parameters begin, and the place of its name.
#[derive(Clone, Copy)]
pub struct Tally {
    pub fault: usize,
    pub sources: usize,
    pub reactors: usize,
    pub names: usize,
    pub own: usize,
    pub at: usize,
}

// What is known of the tree after some words: the whole definitions; and of the present one its whole
// expressions, its open applications, its AllocMonos and its R commands so far. Counts stay at 200 once
// they reach it.
#[derive(Clone, Copy)]
pub struct Tree {
    pub definitions: u8,
    pub count: u8,
    pub level: u8,
    pub calls: u8,
    pub steps: u8,
}

// What an application applies: a sign, or a reactor by its number.
#[derive(Clone, Copy)]
pub enum Operator {
    Sign(Sign),
    Reactor(usize),
}

// An application whose bracket is open: its operator, the place of the operator, and how many operands it
// has so far.
#[derive(Clone, Copy)]
pub struct Application {
    pub operator: Operator,
    pub at: usize,
    pub operands: u8,
}

// How large a whole definition is: its parameters, its sinks, its AllocMonos and its R commands.
#[derive(Clone, Copy)]
pub struct Size {
    pub parameters: u8,
    pub sinks: u8,
    pub declared: u8,
    pub running: u8,
}

// Where the names of the sources, of the reactors, and of the parameters of all reactors begin.
#[derive(Clone, Copy)]
pub struct Places {
    pub sources: [usize; 31],
    pub reactors: [usize; 32],
    pub parameters: [usize; 224],
}

// All that is known after some words: of the names, with their places, and of the tree, with the sizes of
// the whole definitions and the open applications from the outermost on.
#[derive(Clone, Copy)]
pub struct Knowing {
    pub tally: Tally,
    pub tree: Tree,
    pub places: Places,
    pub sizes: [Size; 32],
    pub pile: [Application; 16],
}

// What is known of a text whose form is right: the lowest byte that 17 finds fault with, the text's
// length if there is none; and its sources and definitions.
#[derive(Clone, Copy)]
pub struct Found {
    pub fault: usize,
    pub sources: usize,
    pub definitions: usize,
}

// Where the present reactor's commands go: their first byte in the output, its parameters and D commands,
// and the D and R commands that are written.
#[derive(Clone, Copy)]
pub struct Cursor {
    pub first: usize,
    pub parameters: u8,
    pub declared: u8,
    pub calls: u8,
    pub steps: u8,
}

// What an operand's name stands for: a parameter, or a global, where 0 is the time.
#[derive(Clone, Copy)]
pub enum Meant {
    Parameter(usize),
    Global(usize),
}
