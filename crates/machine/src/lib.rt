// 4.1 The machine's calls. Check and start are those of load and image; turn and preview are here.
// Each answers with an Answer, which has a number and a place.
//
// A turn sums up the facts of each reactor once, for the test of the image and for the run. A command is
// decoded once (exec) and carried out by a function of its own on the indices of its slots (command,
// allocate, cells), which a table gives (places); a deployment's commands follow one another (run). A
// completed run leaves its sinks, cells with what was kept (keeps) and cleared words (finish), a refused
// one is undone in place (undo); these go over the deployments (passes). A turn copies no memory, a preview
// copies it once; the work of a turn is linear in the program's bytes and memory's words.
#![tactic(auto)]

mod accepted;
mod allocate;
mod asked;
mod back;
mod calls;
mod cells;
mod clear;
mod command;
mod exec;
mod finish;
mod keeps;
mod passes;
mod places;
mod run;
mod undo;

pub use answer::{Answer, Refusal, number, place};
pub use calls::{preview, turn};
pub use image::start;
pub use load::check;

// What a command comes to, where it is not refused: it has given its result, or has none, and the next one follows; or
// the deployment named runs first.
#[derive(Clone, Copy)]
pub enum Outcome {
    Given,
    Move,
    Call(u32),
}
