// 10 to 13: what one turn brings, and the clock.
ghost use Rattle.std.specs.Prelude.{◌+◌, ◌<◌, ◌≡◌, MatchOption};
ghost use Rattle.program.specs.Bytes as B;
ghost use Rattle.program.specs.Kind as K;
ghost use Rattle.remus.specs.Turn as T;

use crate::command::reading_at;
use answer::Refusal;
use image::{MOST_TURNS, turns};
use program::{global_kind, globals, legal, main_of, sink_count};

// Whether reading k, from 0, is legal.
fn reading_legal(program: &[u8], readings: &[u32], k: u8) -> bool
    requires { k < 255 }
    ensures { let p = program.now in let rd = readings.now in
        result ≡ K.legal p (B.global_kind p (k + 1)) (T.reading_at rd k) }
{
    let kind = global_kind(program, k + 1);
    legal(program, kind, reading_at(readings, k))
}

// The first reading that is not legal.
fn bad_reading(program: &[u8], readings: &[u32]) -> Option<u8>
    ensures { let first = T.bad_reading program.now readings.now in let n = B.globals program.now in
        MatchOption result (first ≡ n) (λ k. (first ≡ k) × (k < n)) }
{
    for k in 0..globals(program) {
        if !reading_legal(program, readings, k) {
            return Some(k);
        }
    }
    None
}

// The first question that is not answered well.
pub(crate) fn asked(
    program: &[u8],
    memory: &[u32],
    readings: &[u32],
    space: &[u32],
) -> Result<(), Refusal>
    ensures { let p = program.now in let m = memory.now in let rd = readings.now in
        let sk = space.now in
        result ≡ T.asked_of p m rd sk }
{
    let g = globals(program);
    if readings.len() != 2 * (g as usize) {
        return Err(Refusal::ReadingsLength(readings.len()));
    }
    if let Some(k) = bad_reading(program, readings) {
        return Err(Refusal::Reading(k as usize));
    }
    let need = 2 * (sink_count(program, main_of(program) as u32) as usize);
    if space.len() < need {
        return Err(Refusal::SinkSpace(need));
    }
    if MOST_TURNS <= turns(memory) {
        return Err(Refusal::Clock);
    }
    Ok(())
}
