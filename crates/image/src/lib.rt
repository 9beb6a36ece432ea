// Memory between turns: section 3 of the manual.
//
// Words, from 0: u, turns, then the deployments. A deployment: reactor, wired, next, then a mark and
// a content for each location that has words. Every function is total: a word past the end is 0, and a
// store there does nothing, so no caller has to know that an image is sound.
#![tactic(auto)]

mod calls;
mod chain;
mod children;
mod commands;
mod deployment;
mod own;
mod passes;
mod soundness;
mod sweep;
mod table;
mod tiled;
mod tiling;
mod words;
mod zero;

pub use calls::{start, words_legal};
pub use commands::makes_at;
pub use deployment::{content, deploy, mark, size_at, slot, value_at};
pub use soundness::sound;
pub use sweep::sound_by;
pub use tiling::counts_at;
pub use words::{
    MAIN_AT, MOST_DEPTH, MOST_TURNS, MOST_WORDS, SLOTS_AT, next, pair, pair_within, put_pair,
    put_pair_within, reactor, set_turns, set_used, set_wired, turns, used, wired, word,
};
pub use zero::wipe;

// The three passes of soundness: where deployments begin, how often each is named, how deep each is.
#[derive(Clone, Copy)]
pub enum Pass {
    Starts,
    Names,
    Depths,
}

// What a D command makes in its slot: a deployment of a reactor, a branch point of a shape, a cell of a
// kind, or nothing.
#[derive(Clone, Copy)]
pub enum Makes {
    Deployment(u8),
    Point(u8),
    Cell(u8),
    Nothing,
}

// A D slot: its location, and what its command makes there.
#[derive(Clone, Copy)]
pub struct DSlot {
    pub location: u16,
    pub makes: Makes,
}
