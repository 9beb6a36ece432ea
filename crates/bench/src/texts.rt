// Rules from text, as an analyst sees them: what compile says of a text, three turns of what it has
// written, and why other texts are refused.
use crate::text::Told;
use crate::turns::put_turn_into;
use haai::compile;
use machine::{Answer, place};
use std::io;

// Bytes for what the texts below become.
const OUTPUT: usize = 500;

// A line `name: compile number, place`.
fn put_compiled(rt: &impl Print, name: &str, text: &str, output: &mut [u8]) -> io::Result<Answer> {
    let answer = compile(text.as_bytes(), output);
    println!(rt; "{name}: compile {}", Told(answer))?;
    Ok(answer)
}

// A start, and a turn with each of the readings.
fn put_turns(
    rt: &impl Print,
    name: &str,
    program: &[u8],
    sinks: &mut [u32],
    turns: &[&[u32]],
) -> io::Result<()> {
    let mut memory = [77u32; 200];
    let _ = machine::start(program, &mut memory);
    for readings in turns {
        put_turn_into(rt, name, program, &mut memory, readings, sinks)?;
    }
    Ok(())
}

// The same of a text.
fn put_rule(
    rt: &impl Print,
    name: &str,
    text: &str,
    sinks: &mut [u32],
    turns: &[&[u32]],
) -> io::Result<()> {
    let mut output = [77u8; OUTPUT];
    let n = place(put_compiled(rt, name, text, &mut output)?);
    match output.get(..n) {
        Some(program) => put_turns(rt, name, program, sinks, turns),
        None => Ok(()),
    }
}

// The second turn lacks a reading.
fn average(rt: &impl Print) -> io::Result<()> {
    put_rule(
        rt,
        "average from text",
        "(source a) (source b) (source c) (defr (average x y z) (/ (+ (+ x y) z) 3)) (defr (main) (average a b c))",
        &mut [77u32; 2],
        &[
            &[1, 10, 1, 20, 1, 30],
            &[1, 10, 0, 0, 1, 30],
            &[1, 10, 1, 20, 1, 31],
        ],
    )
}

// Erases and spare blocks in; the erases left in percent, a class, and the mean of erases and spares left out.
fn health(rt: &impl Print) -> io::Result<()> {
    put_rule(
        rt,
        "health from text",
        "(source erases) (source spares)\n(defr (percent part whole) (/ (* 100 part) whole))\n(defr (left used rated) (percent (- rated used) rated))\n(defr (main) (out (left erases 3000) (/ (left erases 3000) 20) (/ (+ (left erases 3000) (percent spares 64)) 2)))\n",
        &mut [77u32; 6],
        &[&[1, 300, 1, 60], &[1, 2500, 1, 12], &[1, 100, 0, 0]],
    )
}

fn put_refused(rt: &impl Print, name: &str, text: &str) -> io::Result<()> {
    let _ = put_compiled(rt, name, text, &mut [77u8; 43])?;
    Ok(())
}

pub fn print_all(rt: &impl Print) -> io::Result<()> {
    average(rt)?;
    health(rt)?;
    put_refused(rt, "text with a bracket too many", "(defr (m) 1))")?;
    put_refused(rt, "text that ends too soon", "(defr (m) 1")?;
    put_refused(rt, "text with an unknown name", "(defr (m) x)")?;
    put_refused(rt, "text with an operand too few", "(defr (m) (+ 1))")?;
    put_refused(rt, "text for 44 bytes in 43", "(defr (m) 1)")
}
