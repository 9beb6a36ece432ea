// The calls on bytes. Where the length of a slice is no multiple of four, its last bytes make no word: no
// call reads or writes them.
ghost use Rattle.std.specs.Prelude.{◌≡◌};
ghost use Rattle.rig.specs.Face.{one_number, faced, turn_faced, preview_faced, start_bytes};
ghost use Rattle.rig.specs.Face.{turn_bytes, preview_bytes};
ghost use Rattle.rig.specs.Clauses.{unfit_of};
ghost use Rattle.load.specs.Check.{check_of};
ghost use Rattle.figure.specs.Figure.{figure_of};
ghost use Rattle.haai.specs.Compile.{compile_of};

use crate::pack::pack;
use crate::pairs::call_pairs;
use crate::rooms::{Call, Request};
use figure::figure;
use haai::compile;
use image::words_legal;
use machine::{Answer, Refusal, check, number, place};

// Check.
#[unsafe(no_mangle)]
pub extern "C" fn remus_check(program: &[u8]) -> u64
    ensures { result ≡ one_number (check_of program.now) }
{
    let c = check(program);
    pack(number(c), place(c))
}

// Figure.
#[unsafe(no_mangle)]
pub extern "C" fn remus_figure(program: &[u8]) -> u64
    ensures { result ≡ one_number (figure_of program.now) }
{
    let f = figure(program);
    pack(number(f), place(f))
}

// Compile. Text and output are bytes, so that nothing is copied.
#[unsafe(no_mangle)]
pub extern "C" fn remus_compile(text: &[u8], output: &mut [u8]) -> u64
    ensures answer { result ≡ one_number (compile_of text.now output.old).answer }
    ensures output { output.new ≡ (compile_of text.now output.old).output }
{
    let c = compile(text, output);
    pack(number(c), place(c))
}

// The answer where lengths are against the call: n words of memory, and of a preview k of work memory.
fn unfit(program: &[u8], n: usize, k: usize) -> Answer
    ensures { result ≡ unfit_of n k (check_of program.now) }
{
    check(program)?;
    if words_legal(n) {
        return Err(Refusal::WorkLength(k));
    }
    Err(Refusal::MemoryLength(n))
}

// Start. It takes no readings and has no sinks.
#[unsafe(no_mangle)]
pub extern "C" fn remus_start(program: &[u8], memory: &mut [u8]) -> u64
    ensures answer { result ≡ one_number (start_bytes program.now memory.old).answer }
    ensures memory { memory.new ≡ (start_bytes program.now memory.old).memory }
{
    let n = memory.len() / 4;
    let a = if words_legal(n) {
        let request = Request {
            call: Call::Start,
            program,
            readings: &[],
        };
        request.on_bytes(memory, &mut [])
    } else {
        unfit(program, n, n)
    };
    pack(number(a), place(a))
}

// A turn.
#[unsafe(no_mangle)]
pub extern "C" fn remus_turn(
    program: &[u8],
    memory: &mut [u8],
    readings: &[u8],
    sinks: &mut [u8],
) -> u64
    ensures { let p = program.now in let m = memory.old in
        let rd = readings.now in let sk = sinks.old in
        faced result memory.new sinks.new ≡ turn_faced (turn_bytes p m rd sk) }
{
    let n = memory.len() / 4;
    let a = if words_legal(n) {
        call_pairs(Call::Turn, program, memory, readings, sinks)
    } else {
        unfit(program, n, n)
    };
    pack(number(a), place(a))
}

// A preview. Its turn runs in a room with a copy of memory.
#[unsafe(no_mangle)]
pub extern "C" fn remus_preview(
    program: &[u8],
    memory: &[u8],
    work: &mut [u8],
    readings: &[u8],
    sinks: &mut [u8],
) -> u64
    ensures { let p = program.now in let m = memory.now in let wk = work.old in
        let rd = readings.now in let sk = sinks.old in
        faced result work.new sinks.new ≡ preview_faced (preview_bytes p m wk rd sk) }
{
    let n = memory.len() / 4;
    let k = work.len() / 4;
    let a = if (k == n) & words_legal(n) {
        call_pairs(Call::Preview(memory), program, work, readings, sinks)
    } else {
        unfit(program, n, k)
    };
    pack(number(a), place(a))
}
