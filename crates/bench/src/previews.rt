// The bench cases about previews, as a user sees them: what is shown of the turn, and then every word of
// what was lent. Work memory is not zero before.
use crate::programs::{CLOCK, NEST, TOGGLE};
use crate::text::Words;
use crate::turns::{put_asked, put_outcome, put_turn};
use std::io;

// One preview, with space for one sink that is not zero before it, the line of it and that of the words.
fn put_preview(
    rt: &impl Print,
    name: &str,
    program: &[u8],
    memory: &[u32],
    work: &mut [u32],
    readings: &[u32],
) -> io::Result<()> {
    let mut sinks = [77u32; 2];
    put_asked(rt, name, ", preview of turn ", memory, readings)?;
    let answer = machine::preview(program, memory, work, readings, &mut sinks);
    put_outcome(rt, answer, memory, &sinks)?;
    print!(rt; "memory{}; work memory{}", Words(memory), Words(work))?;
    println!(rt; "; sink space{}", Words(&sinks))
}

// A start, and a preview of the first turn.
fn first(
    rt: &impl Print,
    name: &str,
    program: &[u8],
    memory: &mut [u32],
    work: &mut [u32],
    readings: &[u32],
) -> io::Result<()> {
    let _ = machine::start(program, memory);
    put_preview(rt, name, program, memory, work, readings)
}

// A second preview shows the same, and then so does the turn.
fn clock(rt: &impl Print, memory: &mut [u32], work: &mut [u32]) -> io::Result<()> {
    first(rt, "clock", &CLOCK, memory, work, &[])?;
    put_preview(rt, "clock again", &CLOCK, memory, work, &[])?;
    put_turn(rt, "clock", &CLOCK, memory, &[])?;
    println!(rt; "memory{}", Words(memory))
}

// Work memory of another length, and memory that is itself too short: nothing is written.
fn lengths(rt: &impl Print) -> io::Result<()> {
    first(
        rt,
        "clock, work memory of 8 words",
        &CLOCK,
        &mut [77u32; 9],
        &mut [77u32; 8],
        &[],
    )?;
    first(
        rt,
        "clock in 1 word, work memory of 2",
        &CLOCK,
        &mut [77u32; 1],
        &mut [77u32; 2],
        &[],
    )
}

// 14 and 15: work memory is then a copy.
fn stopped(rt: &impl Print) -> io::Result<()> {
    first(
        rt,
        "toggle in 33 words",
        &TOGGLE,
        &mut [77u32; 33],
        &mut [77u32; 33],
        &[1, 7, 1, 5],
    )?;
    first(
        rt,
        "nest in 834 words",
        &NEST,
        &mut [77u32; 834],
        &mut [77u32; 834],
        &[],
    )
}

pub fn print_all(rt: &impl Print) -> io::Result<()> {
    clock(rt, &mut [77u32; 9], &mut [77u32; 9])?;
    lengths(rt)?;
    stopped(rt)
}
