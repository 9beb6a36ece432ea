// The bench cases, run through the proved code and printed, and vectors. The file stdout beside src/
// holds what they have to come to, and the gate compares the two.
#![tactic(auto)]

mod checks;
mod faults;
mod figures;
mod line;
mod previews;
mod primitives;
mod programs;
mod text;
mod texts;
mod tower;
mod trial;
mod turns;
mod vectors;
mod words;

use std::io;

fn main(rt: HostRuntime) -> io::Result<()> {
    primitives::print_all(&rt)?;
    checks::print_all(&rt)?;
    turns::print_all(&rt)?;
    faults::print_all(&rt)?;
    previews::print_all(&rt)?;
    figures::print_all(&rt)?;
    texts::print_all(&rt)?;
    vectors::run(&rt)
}
