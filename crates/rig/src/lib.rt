// The machine for a C caller, by exported functions on bytes and on words.
//
// 4.13 Each call is that of crate machine, of figure or of haai. Rattle has no way to take bytes for words, so a
// call on bytes copies them to a room of words and back (rooms); a call on words copies nothing (words).
#![tactic(auto)]

mod bytes;
mod calls;
mod pack;
mod pairs;
mod rooms;
mod words;

pub use calls::{remus_check, remus_compile, remus_figure, remus_preview, remus_start, remus_turn};
pub use words::{remus_preview_words, remus_start_words, remus_turn_words};
