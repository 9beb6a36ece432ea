// The bench cases about figures, as a user sees them: how many words are enough, or why no number is; and
// turns in exactly so many.
use crate::programs::{CIRCLE, CLOCK, NEST, PEAK, TOGGLE};
use crate::text::Told;
use crate::tower::tower;
use crate::turns::three_turns;
use figure::figure;
use image::MOST_WORDS;
use machine::place;
use std::io;

// A line `name: figure number, place`.
fn put_figure(rt: &impl Print, name: &str, program: &[u8]) -> io::Result<()> {
    println!(rt; "{name}: figure {}", Told(figure(program)))
}

// The second time main deploys reactor 1.
fn circle(rt: &impl Print) -> io::Result<()> {
    let mut program = CIRCLE;
    put_figure(rt, "circle, main not reaching it", &program)?;
    program[117] = 1;
    put_figure(rt, "circle, main reaching it", &program)
}

// The figure is 16,384, the most words that memory may have, and twice that.
fn towers(rt: &impl Print) -> io::Result<()> {
    put_figure(rt, "tower, main deploying floor 9", &tower(9))?;
    put_figure(rt, "tower, main deploying floor 10", &tower(10))
}

// Turns in as many words as the figure says, where memory has them.
fn within(
    rt: &impl Print,
    name: &str,
    program: &[u8],
    memory: &mut [u32],
    readings: &[u32],
) -> io::Result<()> {
    let n = place(figure(program));
    if memory.len() < n {
        return Ok(());
    }
    three_turns(rt, name, program, &mut memory[..n], readings)
}

// No 14, and no word left over.
fn enough(rt: &impl Print) -> io::Result<()> {
    within(
        rt,
        "toggle in the words of its figure",
        &TOGGLE,
        &mut [77u32; 64],
        &[1, 7, 1, 5],
    )?;
    within(
        rt,
        "tower in the words of its figure",
        &tower(9),
        &mut [77u32; MOST_WORDS],
        &[],
    )
}

pub fn print_all(rt: &impl Print) -> io::Result<()> {
    put_figure(rt, "clock", &CLOCK)?;
    put_figure(rt, "toggle", &TOGGLE)?;
    put_figure(rt, "running maximum", &PEAK)?;
    put_figure(rt, "nest", &NEST)?;
    circle(rt)?;
    towers(rt)?;
    enough(rt)
}
