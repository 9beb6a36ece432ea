// What the check says of the bench programs and of these with a command changed, and what start says.
use crate::programs::{CLOCK, NEST, PEAK, TOGGLE, put_command};
use crate::text::Told;
use std::io;

// A line `name: check number, place`.
fn put_check(rt: &impl Print, name: &str, program: &[u8]) -> io::Result<()> {
    println!(rt; "{name}: check {}", Told(machine::check(program)))
}

// The line of a program with another command.
fn put_changed(
    rt: &impl Print,
    name: &str,
    change: &str,
    program: &mut [u8],
    at: u16,
    command: [u8; 4],
) -> io::Result<()> {
    put_command(program, at, command);
    println!(rt; "{name}{change}: check {}", Told(machine::check(program)))
}

fn toggle_with(rt: &impl Print, change: &str, at: u16, command: [u8; 4]) -> io::Result<()> {
    put_changed(rt, "toggle", change, &mut TOGGLE, at, command)
}

fn peak_with(rt: &impl Print, change: &str, at: u16, command: [u8; 4]) -> io::Result<()> {
    put_changed(rt, "running maximum", change, &mut PEAK, at, command)
}

fn clock(rt: &impl Print) -> io::Result<()> {
    let program = CLOCK;
    put_check(rt, "clock", &program)?;
    put_check(rt, "clock without its last byte", &program[..43])?;
    put_changed(
        rt,
        "clock",
        " with its last command's a set to 1",
        &mut CLOCK,
        36,
        [8, 0, 1, 0],
    )
}

fn toggle(rt: &impl Print) -> io::Result<()> {
    put_check(rt, "toggle", &TOGGLE)?;
    toggle_with(rt, " with a remainder where it divides", 126, [10, 4, 1, 4])?;
    toggle_with(
        rt,
        " with a tick difference where it subtracts",
        70,
        [10, 13, 0, 1],
    )?;
    toggle_with(
        rt,
        " with no primitive where it subtracts",
        70,
        [10, 14, 0, 1],
    )
}

// One command out of order among those that deploy, supply, run and read at location 11.
fn disorder(rt: &impl Print) -> io::Result<()> {
    toggle_with(rt, ", source 0 supplied twice", 190, [5, 0, 3, 11])?;
    toggle_with(
        rt,
        ", React before source 1 is supplied",
        190,
        [6, 0, 0, 11],
    )?;
    toggle_with(rt, ", Consume before React", 198, [7, 0, 0, 11])?;
    toggle_with(rt, ", a second React", 206, [6, 0, 0, 11])?;
    toggle_with(rt, ", Supply after React", 206, [5, 0, 2, 11])?;
    toggle_with(rt, ", a second AllocPoly", 182, [9, 0, 10, 0])?;
    toggle_with(rt, ", AllocMono of its own reactor", 86, [1, 2, 0, 0])?;
    let mut twice = TOGGLE;
    put_command(&mut twice, 206, [8, 0, 1, 0]);
    put_changed(
        rt,
        "toggle",
        ", its sink set twice",
        &mut twice,
        214,
        [8, 0, 1, 0],
    )
}

fn peak(rt: &impl Print) -> io::Result<()> {
    put_check(rt, "running maximum", &PEAK)?;
    peak_with(rt, ", the cell of a reactor's kind", 29, [11, 2, 0, 0])?;
    peak_with(rt, ", Fetch among the D commands", 29, [12, 0, 0, 0])?;
    peak_with(rt, ", Fetch of no cell", 45, [12, 0, 0, 1])?;
    peak_with(rt, ", Keep of a truth", 77, [13, 0, 3, 0])?;
    peak_with(rt, ", a second Keep", 85, [13, 0, 5, 0])?;
    peak_with(rt, " without its Keep", 77, [3, 0, 0, 0])
}

// A line `name, n words: start number, place`.
fn put_start(rt: &impl Print, name: &str, program: &[u8], memory: &mut [u32]) -> io::Result<()> {
    let answer = machine::start(program, memory);
    println!(rt; "{name}, {} words: start {}", memory.len(), Told(answer))
}

// Memory is not zero before a start.
fn starts(rt: &impl Print) -> io::Result<()> {
    put_start(rt, "clock", &CLOCK, &mut [77u32; 8])?;
    put_start(rt, "clock", &CLOCK, &mut [77u32; 9])?;
    put_start(rt, "clock", &CLOCK, &mut [77u32; 1])?;
    put_start(rt, "toggle", &TOGGLE, &mut [77u32; 55])
}

pub fn print_all(rt: &impl Print) -> io::Result<()> {
    clock(rt)?;
    put_check(rt, "nest", &NEST)?;
    toggle(rt)?;
    disorder(rt)?;
    peak(rt)?;
    starts(rt)
}
