// A turn or a preview with readings and sink space of bytes, in rooms of words.
ghost use Rattle.std.specs.Prelude.{◌/◌, ◌≤◌, ◌≡◌, length};
ghost use Rattle.machine.specs.Clauses.{turned};
ghost use Rattle.rig.specs.Words.{words_of};
ghost use Rattle.rig.specs.Clauses.{Level, Runs, call_held, placed_at, sinks_held};

use crate::bytes::{load, save};
use crate::rooms::{Call, Request};
use image::MOST_WORDS;
use machine::{Answer, Refusal};

// More words of readings than any program takes.
const TOO_MANY: usize = 63;

// A pair for each sink that a main can have: no turn writes past them, so no others are copied.
const SINK_WORDS: usize = 14;

// The answer; where it is 10, with n as its place.
fn with_place(answer: Answer, n: usize) -> Answer
    ensures { result ≡ placed_at n answer }
{
    match answer {
        Ok(_) => answer,
        Err(why) => match why {
            Refusal::ReadingsLength(_) => Err(Refusal::ReadingsLength(n)),
            _ => answer,
        },
    }
}

// More readings than any program takes are refused as 63 words are, but for 10's place.
pub(crate) fn call_pairs(
    call: Call,
    program: &[u8],
    memory: &mut [u8],
    readings: &[u8],
    sinks: &mut [u8],
) -> Answer
    requires runs { Runs call }
    requires room_enough { length memory.old / 4 ≤ MOST_WORDS }
    requires level { Level call memory.old }
    ensures { let p = program.now in let rd = words_of readings.now in let sk = sinks.old in
        let t = call_held call.entry p memory.old rd (words_of sk) in
        turned result memory.new sinks.new ≡ sinks_held sk t }
{
    let n = readings.len() / 4;
    let mut room = [0u32; TOO_MANY];
    let mut space = [0u32; SINK_WORDS];
    let given = &mut room[..n.min(TOO_MANY)];
    let sunk = &mut space[..(sinks.len() / 4).min(SINK_WORDS)];
    load(readings, given);
    load(sinks, sunk);
    let request = Request {
        call,
        program,
        readings: given,
    };
    let answer = request.on_bytes(memory, sunk);
    save(sunk, sinks);
    if TOO_MANY < n {
        with_place(answer, n)
    } else {
        answer
    }
}
