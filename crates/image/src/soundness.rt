// 3.11 Soundness of an image.
ghost use Rattle.std.specs.Prelude.{◌≡◌};
ghost use Rattle.value.specs.Test.{◌and◌, ◌<?◌, ◌=?◌};
ghost use Rattle.program.specs.Bytes as B;
ghost use Rattle.image.specs.Memory as M;
ghost use Rattle.image.specs.Passes as P;
ghost use Rattle.image.specs.Clauses.{Tiling, starts_on};

use crate::Pass;
use crate::commands::fill_positions;
use crate::tiled::Tiled;
use crate::tiling::tiles;
use crate::words::{MAIN_AT, MOST_TURNS, SLOTS_AT, next, reactor, turns, used, wired};
use crate::zero::zero_at;
use program::{HEAD_WORDS, main_of, size_of};

// Whether main comes first.
pub(crate) fn main_first(program: &[u8], memory: &[u32], u: u32) -> bool
    ensures { let p = program.now in let m = memory.now in
        result ≡ ((M.main_at <? u) and (M.reactor m M.main_at =? B.main_of p)) }
{
    (MAIN_AT < u) & (reactor(memory, MAIN_AT) == main_of(program) as u32)
}

// Whether words 0 and 1, the tiling with main first, and the words from u on are right.
fn framed(program: &[u8], memory: &[u32]) -> bool
    ensures { result ≡ P.framed program.now memory.now }
{
    let u = used(memory);
    if memory.len() < u as usize {
        return false;
    }
    if MOST_TURNS < turns(memory) {
        return false;
    }
    if !main_first(program, memory, u) {
        return false;
    }
    if !tiles(program, memory, u) {
        return false;
    }
    zero_at(memory, u as usize, memory.len() - u as usize)
}

// With turns 0: main is unwired and its slots are zero, and no deployment follows it.
fn fresh(program: &[u8], memory: &[u32]) -> Result<(), usize>
    ensures { result ≡ P.fresh_sound program.now memory.now }
{
    let main = main_of(program);
    let size = size_of(program, main as u32);
    let clear = (wired(memory, MAIN_AT) == 0)
        & zero_at(
            memory,
            MAIN_AT as usize + SLOTS_AT,
            (size - HEAD_WORDS) as usize,
        );
    if !clear {
        return Err(MAIN_AT as usize);
    }
    let end = MAIN_AT + size;
    if used(memory) != end {
        return Err(end as usize);
    }
    Ok(())
}

// With turns above 0: every deployment's own words are right, each is named once, none is too deep. Its
// table stays out of the frame of a turn.
#[inline(never)]
fn grown(program: &[u8], memory: &[u32], u: u32) -> Result<(), usize>
    requires { Tiling program.now memory.now u M.main_at }
    ensures { let p = program.now in let m = memory.now in
        result ≡ P.grown_sound p m (starts_on p m u M.main_at) }
{
    let mut places = [0u32; 256];
    fill_positions(program, &mut places);
    let image = Tiled {
        program,
        places: &places,
        memory,
        u,
    };
    image.run_pass(Pass::Starts)?;
    image.run_pass(Pass::Names)?;
    image.run_pass(Pass::Depths).or(Err(0))
}

// Whether an image is sound for a program, and if not, where it is at fault: exactly so for up to 64
// reactors and 16,384 words, which is all that check and length let pass (exact_soundness, exact_place).
pub fn sound(program: &[u8], memory: &[u32]) -> Result<(), usize>
    ensures { result ≡ P.sound_of program.now memory.now }
{
    if !framed(program, memory) {
        return Err(0);
    }
    if next(memory, MAIN_AT) != 0 {
        return Err(MAIN_AT as usize);
    }
    if turns(memory) == 0 {
        return fresh(program, memory);
    }
    let u = used(memory);
    grown(program, memory, u)
}
