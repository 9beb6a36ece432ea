// Files of vectors, most of them from another implementation of the machine (DECISIONS says which are
// not): for each number, how many agree with the proved code, and how many differ.
ghost use Rattle.std.specs.Prelude.{◌≤◌, IfOk, length};

use crate::line::{Line, ROOM};
use crate::trial::{Call, Kind, agrees};
use std::fs::File;
use std::io::Read;
use std::rt::{Env, Files};
use std::{env, io};

// The numbers are 0 to 32.
const NUMBERS: usize = 33;

// The most bytes of a file that are read at a time, and how often.
const PIECE: usize = 65536;

const TURNS: u32 = 1000000;

// How many vectors agree, for each number, and how many differ.
#[derive(Clone, Copy)]
struct Tally {
    agree: [u32; NUMBERS],
    differ: u32,
}

// What the vectors are of, the line that is read, and the vectors before it.
#[derive(Clone, Copy)]
struct Progress {
    kind: Kind,
    line: Line,
    tally: Tally,
}

impl Tally {
    fn count(&mut self, number: u32, agrees: bool) {
        if !agrees {
            self.differ = self.differ % 1000000 + 1;
        } else if let Some(n) = self.agree.get_mut(number as usize) {
            *n = *n % 1000000 + 1;
        }
    }
}

impl Progress {
    fn begin(kind: Kind) -> Progress {
        Progress {
            kind,
            line: Line::first(),
            tally: Tally {
                agree: [0; NUMBERS],
                differ: 0,
            },
        }
    }

    // One more byte of the file: a line's end has its vector run.
    fn step(&mut self, b: u8, room: &mut [u8; ROOM]) {
        if b != b'\n' {
            self.line.step(b, room);
            return;
        }
        let line = self.line;
        let agrees = agrees(self.kind, line, room);
        self.tally.count(line.number(), agrees);
        self.line = line.following();
    }

    // Some of the file: whether there was more.
    fn read_some(&mut self, file: &mut impl Read, room: &mut [u8; ROOM]) -> io::Result<bool> {
        let mut text = [0u8; PIECE];
        let n = read_full(file, &mut text)?;
        for b in &text[..n] {
            self.step(*b, room);
        }
        Ok(0 < n)
    }

    // The file to its end. Nothing says that a file ends, so the loop counts its turns.
    fn read_all(&mut self, file: &mut impl Read, room: &mut [u8; ROOM]) -> io::Result<()> {
        for _ in 0..TURNS {
            if !self.read_some(file, room)? {
                break;
            }
        }
        Ok(())
    }
}

// Reads until the space is full or the file ends, and says how many bytes came. A read may give any number of them, so
// that no `for` counts the turns.
fn read_full(file: &mut impl Read, space: &mut [u8]) -> io::Result<usize>
    ensures { IfOk result (λ n. n ≤ length space.new) }
{
    let mut n = 0;
    while n < space.len() {
        let more = file.read(&mut space[n..])?;
        if more == 0 {
            break;
        }
        n += more;
    }
    Ok(n)
}

// A line for each number that vectors and code agree on, and one for those that differ.
fn print(rt: &impl Print, label: &str, tally: Tally) -> io::Result<()> {
    for (n, count) in tally.agree.iter().enumerate() {
        if *count != 0 {
            println!(rt; "{label}{n}: {count}")?;
        }
    }
    println!(rt; "differ: {}", tally.differ)
}

// The path that an argument is; a missing one is empty, and there is no file of that name.
fn path_at<R: Env + AllocGlobal>(rt: &R, argument: usize) -> io::Result<String> {
    match env::args(rt)?.nth(argument) {
        Some(path) => Ok(path),
        None => Ok(String::new(rt.alloc())),
    }
}

// What the vectors of a file come to.
fn tally_of(rt: &impl Files, kind: Kind, path: &str) -> io::Result<Tally> {
    let mut file = File::open(rt, path)?;
    let mut room = [0u8; ROOM];
    let mut state = Progress::begin(kind);
    state.read_all(&mut file, &mut room)?;
    Ok(state.tally)
}

// Runs the file that an argument names; where it cannot be read, standard error says which it was.
fn run_file<R: Files + Env + Print + Eprint + AllocGlobal>(
    rt: &R,
    kind: Kind,
    label: &str,
    argument: usize,
) -> io::Result<()> {
    let path = path_at(rt, argument)?;
    match tally_of(rt, kind, path.as_str()) {
        Ok(tally) => print(rt, label, tally),
        Err(error) => {
            eprintln!(rt; "{path}: {error}")?;
            Err(error)
        }
    }
}

// A file that cannot be read keeps none of the others from being run; the first error is then returned.
pub fn run<R: Files + Env + Print + Eprint + AllocGlobal>(rt: &R) -> io::Result<()> {
    let check = run_file(rt, Kind::Program(Call::Check), "check ", 1);
    let start = run_file(rt, Kind::Program(Call::Start), "start ", 2);
    let image = run_file(rt, Kind::Program(Call::Image), "image ", 3);
    let turn = run_file(rt, Kind::Program(Call::Turn), "turn ", 4);
    let preview = run_file(rt, Kind::Program(Call::Preview), "preview ", 5);
    let figure = run_file(rt, Kind::Program(Call::Figure), "figure ", 6);
    let compile = run_file(rt, Kind::Text, "compile ", 7);
    check
        .and(start)
        .and(image)
        .and(turn)
        .and(preview)
        .and(figure)
        .and(compile)
}
