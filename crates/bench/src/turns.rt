// The bench cases about turns, as a user sees them: readings in; the sink and the words used, or the
// refusal, out.
use crate::programs::{AVERAGE, CLOCK, NEST, PEAK, TOGGLE};
use crate::text::{Pairs, Told};
use image::turns;
use machine::{Answer, turn};
use std::io;

// `name, turn t: readings a b -> `, and no readings where there are none; with other words for `, turn ` where the
// call is another.
pub(crate) fn put_asked(
    rt: &impl Print,
    name: &str,
    call: &str,
    memory: &[u32],
    readings: &[u32],
) -> io::Result<()> {
    print!(rt; "{name}{call}{}: ", turns(memory) as u64 + 1)?;
    if readings.is_empty() {
        return Ok(());
    }
    print!(rt; "readings{} -> ", Pairs(readings))
}

// `sink v, u words used`.
fn put_done(rt: &impl Print, sinks: &[u32], u: usize) -> io::Result<()> {
    println!(rt; "sink{}, {u} words used", Pairs(sinks))
}

// `refused number, place; turns completed t`.
fn put_refused(rt: &impl Print, answer: Answer, memory: &[u32]) -> io::Result<()> {
    println!(rt;
        "refused {}; turns completed {}",
        Told(answer),
        turns(memory)
    )
}

// What came of it.
pub(crate) fn put_outcome(
    rt: &impl Print,
    answer: Answer,
    memory: &[u32],
    sinks: &[u32],
) -> io::Result<()> {
    match answer {
        Ok(u) => put_done(rt, sinks, u),
        Err(_) => put_refused(rt, answer, memory),
    }
}

// One turn, and the line of it.
pub(crate) fn put_turn_into(
    rt: &impl Print,
    name: &str,
    program: &[u8],
    memory: &mut [u32],
    readings: &[u32],
    sinks: &mut [u32],
) -> io::Result<()> {
    put_asked(rt, name, ", turn ", memory, readings)?;
    let answer = turn(program, memory, readings, sinks);
    put_outcome(rt, answer, memory, sinks)
}

// With space for one sink that is not zero before it.
pub(crate) fn put_turn(
    rt: &impl Print,
    name: &str,
    program: &[u8],
    memory: &mut [u32],
    readings: &[u32],
) -> io::Result<()> {
    put_turn_into(rt, name, program, memory, readings, &mut [77u32; 2])
}

fn clock(rt: &impl Print, memory: &mut [u32]) -> io::Result<()> {
    let _ = machine::start(&CLOCK, memory);
    put_turn(rt, "clock", &CLOCK, memory, &[])?;
    put_turn(rt, "clock", &CLOCK, memory, &[])
}

// A start, and three turns with the same readings.
pub(crate) fn three_turns(
    rt: &impl Print,
    name: &str,
    program: &[u8],
    memory: &mut [u32],
    readings: &[u32],
) -> io::Result<()> {
    let _ = machine::start(program, memory);
    put_turn(rt, name, program, memory, readings)?;
    put_turn(rt, name, program, memory, readings)?;
    put_turn(rt, name, program, memory, readings)
}

fn toggle(rt: &impl Print, name: &str, memory: &mut [u32]) -> io::Result<()> {
    three_turns(rt, name, &TOGGLE, memory, &[1, 7, 1, 5])
}

// It has a tick difference where it subtracts: the readings are one past the highest number, and that number.
fn ticking(rt: &impl Print, memory: &mut [u32]) -> io::Result<()> {
    let mut program = TOGGLE;
    program[71] = 13;
    let _ = machine::start(&program, memory);
    put_turn(
        rt,
        "toggle of ticks",
        &program,
        memory,
        &[1, 2147483648, 1, 2147483647],
    )
}

fn nest(rt: &impl Print, name: &str, memory: &mut [u32]) -> io::Result<()> {
    let _ = machine::start(&NEST, memory);
    put_turn(rt, name, &NEST, memory, &[])
}

fn average(rt: &impl Print, memory: &mut [u32], readings: &[u32]) -> io::Result<()> {
    let _ = machine::start(&AVERAGE, memory);
    put_turn(rt, "average", &AVERAGE, memory, readings)
}

// A blank reading leaves the maximum as it is, and so does a refused turn.
fn peak(rt: &impl Print) -> io::Result<()> {
    let mut memory = [77u32; 21];
    let _ = machine::start(&PEAK, &mut memory);
    put_turn(rt, "running maximum", &PEAK, &mut memory, &[1, 3])?;
    put_turn(rt, "running maximum", &PEAK, &mut memory, &[1, 5])?;
    put_turn(rt, "running maximum", &PEAK, &mut memory, &[0, 0])?;
    put_turn(rt, "running maximum", &PEAK, &mut memory, &[2, 1])?;
    put_turn(rt, "running maximum", &PEAK, &mut memory, &[1, 2])?;
    put_turn(rt, "running maximum", &PEAK, &mut memory, &[1, 9])?;
    memory[5] = 2;
    memory[6] = 1;
    put_turn(
        rt,
        "running maximum, a truth in its cell",
        &PEAK,
        &mut memory,
        &[1, 9],
    )
}

pub fn print_all(rt: &impl Print) -> io::Result<()> {
    clock(rt, &mut [77u32; 9])?;
    toggle(rt, "toggle", &mut [77u32; 55])?;
    toggle(rt, "toggle in 54 words", &mut [77u32; 54])?;
    ticking(rt, &mut [77u32; 55])?;
    nest(rt, "nest in 833 words", &mut [77u32; 833])?;
    nest(rt, "nest in 834 words", &mut [77u32; 834])?;
    average(rt, &mut [77u32; 21], &[1, 10, 1, 20, 1, 30])?;
    average(rt, &mut [77u32; 21], &[1, 10, 0, 0, 1, 30])?;
    peak(rt)
}
