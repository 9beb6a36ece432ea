// 4.29 The call.
ghost use Rattle.std.specs.Prelude.{◌<◌, ◌≡◌};
ghost use Rattle.program.specs.Bytes as B;
ghost use Rattle.program.specs.Clauses.{Facts};
ghost use Rattle.figure.specs.Figure as F;
ghost use Rattle.figure.specs.Clauses.{Lowest};

use crate::bound::bounds;
use crate::reach::{close, lowest};
use crate::steps::fill_steps;
use answer::{Answer, Refusal};
use image::{MAIN_AT, MOST_WORDS};
use load::judge;
use program::{main_of, reactors};

// The lowest reactor that main needs and that reaches itself.
fn lowest_circular(program: &[u8], facts: &[u64; 64], n: u8) -> Option<u8>
    requires count { n ≡ B.reactors program.now }
    requires some { 0 < n }
    requires facts { Facts program.now facts.now }
    ensures { Lowest program.now result }
{
    let mut table = [[false; 64]; 64];
    fill_steps(program, facts, &mut table, n);
    close(&mut table, n);
    lowest(&table, main_of(program), n)
}

// Of an accepted program.
fn figured(program: &[u8], facts: &[u64; 64]) -> Answer
    requires facts { Facts program.now facts.now }
    requires some { 0 < B.reactors program.now }
    ensures { result ≡ F.figured program.now }
{
    let n = reactors(program);
    if let Some(q) = lowest_circular(program, facts, n) {
        return Err(Refusal::Circular(q as usize));
    }
    let bound = bounds(program, facts, n);
    let words = MAIN_AT as usize + bound[main_of(program) as usize] as usize;
    if words <= MOST_WORDS {
        Ok(words)
    } else {
        Err(Refusal::FigureTooLarge)
    }
}

// The words of memory that are enough for a program; or why there is no such number.
pub fn figure(program: &[u8]) -> Answer
    ensures { result ≡ F.figure_of program.now }
{
    let mut facts = [0u64; 64];
    judge(program, &mut facts)?;
    figured(program, &facts)
}
