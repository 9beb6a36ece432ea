// 4.5 Start.
ghost use Rattle.std.specs.Prelude.{◌≤◌, ◌≡◌, length, Ok};
ghost use Rattle.image.specs.Clauses.{started};
ghost use Rattle.image.specs.Memory as M;
ghost use Rattle.image.specs.Start.{started_of, words_legal, start_by, start_of};

use crate::deployment::deploy;
use crate::words::{FEWEST_WORDS, MAIN_AT, MOST_WORDS, set_used};
use crate::zero::wipe;
use answer::{Answer, Refusal};
use load::check;
use program::main_of;

// Leaves main alone, unwired.
fn place_main(program: &[u8], memory: &mut [u32])
    requires { M.fewest_words ≤ length memory.old }
    ensures { memory.new ≡ started_of program.now (length memory.old) }
{
    let main = main_of(program);
    wipe(memory);
    set_used(memory, MAIN_AT);
    deploy(program, memory, main as u32, 0)
}

// Whether memory may have n words.
pub fn words_legal(n: usize) -> bool
    ensures { result ≡ words_legal n }
{
    (FEWEST_WORDS <= n) & (n <= MOST_WORDS)
}

// Starts with a main of this size, where memory's length is legal and there is room.
fn start_sized(size: usize, program: &[u8], memory: &mut [u32]) -> Answer
    ensures { let p = program.now in let m = memory.old in
        started result memory.new ≡ start_by p m (Ok size) }
{
    let n = memory.len();
    if !words_legal(n) {
        return Err(Refusal::MemoryLength(n));
    }
    if n - (MAIN_AT as usize) < size {
        return Err(Refusal::NoRoom(main_of(program) as usize));
    }
    place_main(program, memory);
    Ok(MAIN_AT as usize + size)
}

// Start: done, with u, or refused; then memory is as at entry.
pub fn start(program: &[u8], memory: &mut [u32]) -> Answer
    ensures { let p = program.now in let m = memory.old in
        started result memory.new ≡ start_of p m }
{
    let size = check(program)?;
    start_sized(size, program, memory)
}
