// 4.29 The figure: the memory that is enough for a program, whatever its turns bring.
//
// Which reactor leads to which is a table (steps), and so is which reaches which, by one step or
// more (reach): a reactor that reaches itself has no bound. Bounds are found in rounds, and counted no
// further than the most words of a memory (bound). The work is bounded by the reactors and their D commands:
// at most 64 · 64 · 64 entries of the table, and twice 64 · 64 · 32 commands.
#![tactic(auto)]

mod bound;
mod calls;
mod reach;
mod steps;

pub use calls::figure;
