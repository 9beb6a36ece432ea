// The calls on a caller's own words: nothing is copied.
ghost use Rattle.std.specs.Prelude.{◌≡◌};
ghost use Rattle.image.specs.Start.{start_of};
ghost use Rattle.remus.specs.Turn.{turn_of};
ghost use Rattle.remus.specs.Preview.{preview_of};
ghost use Rattle.rig.specs.Face.{one_number, faced, turn_faced, preview_faced};

use crate::pack::pack;
use machine::{number, place, preview, start, turn};

// Start.
#[unsafe(no_mangle)]
pub extern "C" fn remus_start_words(program: &[u8], memory: &mut [u32]) -> u64
    ensures answer { result ≡ one_number (start_of program.now memory.old).answer }
    ensures memory { memory.new ≡ (start_of program.now memory.old).memory }
{
    let s = start(program, memory);
    pack(number(s), place(s))
}

// A turn. The program is lent on as a part that is all of it: the compiler then hands its address and
// length over in registers, where it would copy them by way of memory, which takes 3 to 9 ns.
#[unsafe(no_mangle)]
pub extern "C" fn remus_turn_words(
    program: &[u8],
    memory: &mut [u32],
    readings: &[u32],
    sinks: &mut [u32],
) -> u64
    ensures { let p = program.now in let m = memory.old in
        let rd = readings.now in let sk = sinks.old in
        faced result memory.new sinks.new ≡ turn_faced (turn_of p m rd sk) }
{
    let n = program.len();
    let t = turn(&program[..n], memory, readings, sinks);
    pack(number(t), place(t))
}

// A preview.
#[unsafe(no_mangle)]
pub extern "C" fn remus_preview_words(
    program: &[u8],
    memory: &[u32],
    work: &mut [u32],
    readings: &[u32],
    sinks: &mut [u32],
) -> u64
    ensures { let p = program.now in let m = memory.now in let wk = work.old in
        let rd = readings.now in let sk = sinks.old in
        faced result work.new sinks.new ≡ preview_faced (preview_of p m wk rd sk) }
{
    let v = preview(program, memory, work, readings, sinks);
    pack(number(v), place(v))
}
