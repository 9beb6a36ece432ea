// A vector run through the proved code: whether what comes of it is what its line says.
use crate::line::{
    Line, MEMORY, MEMORY_AFTER, OUTPUT_AFTER, READINGS, SINKS, SINKS_AFTER, SINKS_LAST, WORK,
    WORK_AFTER,
};
use crate::words::{fill, same};
use image::MOST_WORDS;
use machine::Refusal;
use program::Header;

// Words for a line's readings, and for its sink space: a pair more than the most globals have.
const FEW_WORDS: usize = 2 * (Header::MOST_GLOBALS as usize + 1);

// Bytes for a text's output space: some more than any text needs.
const MOST_OUTPUT: usize = 42000;

// A call on a program.
#[derive(Clone, Copy)]
pub enum Call {
    Check,
    Start,
    Image,
    Turn,
    Preview,
    Figure,
}

// What the vectors of a file are of: such a call, or texts that are compiled.
#[derive(Clone, Copy)]
pub enum Kind {
    Program(Call),
    Text,
}

// Whether these are all the words of a field of the line.
fn all_words(line: Line, field: u8, room: &[u8], words: &[u32]) -> bool {
    (line.count(field) == words.len()) & same(words, line.words(field, room))
}

// Start's number and place, and every word of memory after it.
fn start_agrees(line: Line, room: &[u8], memory: &mut [u32]) -> bool {
    let answer = machine::start(line.program(room), memory);
    line.says(answer) & all_words(line, MEMORY_AFTER, room, memory)
}

// Whether the image is sound: 0 and 0, or 9 and the place.
fn image_agrees(line: Line, program: &[u8], memory: &[u32]) -> bool {
    match image::sound(program, memory) {
        Ok(()) => line.says(Ok(0)),
        Err(place) => line.says(Err(Refusal::UnsoundImage(place))),
    }
}

// A turn's number and place, and every word of memory and of sink space after it.
fn turn_agrees(
    line: Line,
    room: &[u8],
    memory: &mut [u32],
    readings: &[u32],
    sinks: &mut [u32],
) -> bool {
    let answer = machine::turn(line.program(room), memory, readings, sinks);
    let words = all_words(line, MEMORY_AFTER, room, memory);
    let sunk = all_words(line, SINKS_AFTER, room, sinks);
    line.says(answer) & words & sunk
}

// A preview's, and every word of work memory and of sink space after it.
fn preview_agrees(
    line: Line,
    room: &[u8],
    memory: &[u32],
    work: &mut [u32],
    readings: &[u32],
    sinks: &mut [u32],
) -> bool {
    fill(work, line.words(WORK, room));
    let answer = machine::preview(line.program(room), memory, work, readings, sinks);
    let words = all_words(line, WORK_AFTER, room, work);
    let sunk = all_words(line, SINKS_LAST, room, sinks);
    line.says(answer) & words & sunk
}

// What output space holds before a text is compiled.
const BEFORE: u8 = 238;

// Whether output space has these bytes first, and then those of before.
fn same_bytes(output: &[u8], bytes: &[u8]) -> bool {
    output.iter().zip(bytes.iter()).all(|(b, due)| *b == *due)
        & output.iter().skip(bytes.len()).all(|b| *b == BEFORE)
}

// A text's number and place, and every byte of output space after it.
fn text_agrees_on(line: Line, room: &[u8], output: &mut [u8]) -> bool {
    let answer = haai::compile(line.program(room), output);
    line.says(answer) & same_bytes(output, line.words(OUTPUT_AFTER, room))
}

fn text_agrees(line: Line, room: &[u8]) -> bool {
    let mut output = [BEFORE; MOST_OUTPUT];
    let Some(output) = output.get_mut(..line.count(OUTPUT_AFTER)) else {
        return false;
    };
    text_agrees_on(line, room, output)
}

// A vector of a call, on slices that are as long as the line's.
fn agrees_on(
    call: Call,
    line: Line,
    room: &[u8],
    memory: &mut [u32],
    work: &mut [u32],
    readings: &mut [u32],
    sinks: &mut [u32],
) -> bool {
    fill(memory, line.words(MEMORY, room));
    fill(readings, line.words(READINGS, room));
    fill(sinks, line.words(SINKS, room));
    match call {
        Call::Check => line.says(machine::check(line.program(room))),
        Call::Start => start_agrees(line, room, memory),
        Call::Image => image_agrees(line, line.program(room), memory),
        Call::Turn => turn_agrees(line, room, memory, readings, sinks),
        Call::Preview => preview_agrees(line, room, memory, work, readings, sinks),
        Call::Figure => line.says(figure::figure(line.program(room))),
    }
}

// A word more than memory may have can be tried.
fn call_agrees(call: Call, line: Line, room: &[u8]) -> bool {
    let mut memory = [0u32; MOST_WORDS + 1];
    let mut work = [0u32; MOST_WORDS + 1];
    let mut readings = [0u32; FEW_WORDS];
    let mut sinks = [0u32; FEW_WORDS];
    let Some(memory) = memory.get_mut(..line.count(MEMORY)) else {
        return false;
    };
    let Some(work) = work.get_mut(..line.count(WORK)) else {
        return false;
    };
    let Some(readings) = readings.get_mut(..line.count(READINGS)) else {
        return false;
    };
    let Some(sinks) = sinks.get_mut(..line.count(SINKS)) else {
        return false;
    };
    agrees_on(call, line, room, memory, work, readings, sinks)
}

// Whether the proved code gives what the line says.
pub fn agrees(kind: Kind, line: Line, room: &[u8]) -> bool {
    match kind {
        Kind::Program(call) => call_agrees(call, line, room),
        Kind::Text => text_agrees(line, room),
    }
}
