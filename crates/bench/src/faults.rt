// 5.19 The places of refusal 9, as a user sees them: an image with a word or two changed, and the turn
// that is refused for it.
ghost use Rattle.std.specs.Prelude.{◌<◌};

use crate::programs::{NEST, TOGGLE};
use crate::turns::put_turn;
use program::put;
use std::io;

// A turn of the toggle on its image after two turns, one word of it changed. Main is at 2, minus at 33,
// plus at 44, and the one word left at 55.
fn one_word(rt: &impl Print, name: &str, at: usize, word: u32) -> io::Result<()>
    requires { at < 56 }
{
    two_words(rt, name, at, word, at, word)
}

// The same with two words changed.
fn two_words(
    rt: &impl Print,
    name: &str,
    at: usize,
    word: u32,
    also: usize,
    other: u32,
) -> io::Result<()>
    requires at_bound { at < 56 }
    requires also_bound { also < 56 }
{
    let mut memory = [77u32; 56];
    let mut sinks = [77u32; 2];
    let _ = machine::start(&TOGGLE, &mut memory);
    let _ = machine::turn(&TOGGLE, &mut memory, &[1, 7, 1, 5], &mut sinks);
    let _ = machine::turn(&TOGGLE, &mut memory, &[1, 7, 1, 5], &mut sinks);
    memory[at] = word;
    memory[also] = other;
    put_turn(rt, name, &TOGGLE, &mut memory, &[1, 7, 1, 5])
}

// The frame, which has no place.
fn frame(rt: &impl Print) -> io::Result<()> {
    one_word(rt, "toggle, u inside plus", 0, 54)?;
    one_word(rt, "toggle, too many turns", 1, 2147483648)?;
    one_word(rt, "toggle, minus of no reactor", 33, 3)?;
    one_word(rt, "toggle, plus where main should be", 2, 0)?;
    one_word(rt, "toggle, a word past plus not zero", 55, 1)
}

// A deployment's own words: its wired word, its slots, the chain that a slot of it heads; of main, next.
fn own_words(rt: &impl Print) -> io::Result<()> {
    one_word(rt, "toggle, main with a next", 4, 33)?;
    one_word(rt, "toggle, main not wired", 3, 0)?;
    one_word(
        rt,
        "toggle, main's branch point heading no deployment",
        6,
        43,
    )?;
    one_word(rt, "toggle, main's chain not falling", 46, 44)?;
    one_word(rt, "toggle, minus not wired", 34, 0)?;
    one_word(rt, "toggle, a slot of plus not zero", 47, 1)?;
    two_words(rt, "toggle, both", 34, 0, 47, 1)
}

// How often a deployment is named, once all own words are right.
fn names(rt: &impl Print) -> io::Result<()> {
    one_word(rt, "toggle, nothing naming plus", 6, 33)?;
    one_word(rt, "toggle, nothing naming minus", 46, 0)?;
    two_words(rt, "toggle, that and a slot of plus not zero", 46, 0, 47, 1)
}

// With turns 0: main, then a second deployment, whatever its words.
fn fresh(rt: &impl Print) -> io::Result<()> {
    let mut memory = [0u32; 44];
    memory[0] = 44;
    memory[2] = 2;
    memory[33] = 1;
    memory[34] = 7;
    put_turn(
        rt,
        "toggle, minus there before any turn",
        &TOGGLE,
        &mut memory,
        &[1, 7, 1, 5],
    )?;
    memory[3] = 1;
    put_turn(
        rt,
        "toggle, that and main wired",
        &TOGGLE,
        &mut memory,
        &[1, 7, 1, 5],
    )
}

// Deployments of the nest, each of 13 words and named by the one before: 65 are one too deep.
fn depth(rt: &impl Print) -> io::Result<()> {
    let mut memory = [0u32; 847];
    memory[0] = 847;
    memory[1] = 1;
    for i in 0..65u32 {
        let at = 2 + 13 * i;
        put(&mut memory, at as usize + 1, 1);
        put(&mut memory, at as usize + 3, 5);
        put(&mut memory, at as usize + 4, at + 13);
    }
    put(&mut memory, 838, 0);
    put_turn(rt, "nest at depth 65", &NEST, &mut memory, &[])
}

pub fn print_all(rt: &impl Print) -> io::Result<()> {
    frame(rt)?;
    own_words(rt)?;
    names(rt)?;
    fresh(rt)?;
    depth(rt)
}
