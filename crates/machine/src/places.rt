// Where the words of a running deployment's locations lie.
ghost use Rattle.std.specs.Prelude.{ℕ, ◌+◌, ◌*◌, ◌≤◌, ◌<◌, ◌≡◌, List, length, get_or, set};
ghost use Rattle.program.specs.Bytes as B;
ghost use Rattle.program.specs.Location as L;
ghost use Rattle.image.specs.Memory as M;
ghost use Rattle.machine.specs.Clauses.{Placed, PlacedTo};

use image::{SLOTS_AT, pair};
use program::result_of;
use value::Value;

// A table of a reactor, lent from run to run.
#[derive(Drop)]
pub(crate) struct Slots {
    // How many of the locations before each have words.
    before: [u8; 256],
    ghost whole: { length before ≡ 256 },
}

// The index of the words of a location in the deployment at o, where n before it have words.
pub(crate) fn after(o: u32, n: u8) -> usize
    ensures is { (p m : List ℕ) (l : ℕ) → L.head_words + 2 * n ≡ L.slot_at p (M.reactor m o) l → result ≡ M.slot p m o l }
    ensures at { result ≡ o + L.head_words + 2 * n }
    ensures small { result < 8589934592 }
{
    o as usize + SLOTS_AT + 2 * (n as usize)
}

impl Slots {
    pub(crate) fn new() -> Slots {
        Slots { before: [0u8; 256] }
    }

    // The index of location l's words.
    pub(crate) fn index(&self, o: u32, l: u8) -> usize
        ensures is { let t = self.now.before in
            ((p m : List ℕ) → Placed p (M.reactor m o) t l → result ≡ M.slot p m o l) }
        ensures at { result ≡ o + L.head_words + 2 * get_or self.now.before l 0 }
        ensures small { result < 8589934592 }
    {
        after(o, self.before[l as usize])
    }

    // The value there.
    pub(crate) fn operand(&self, memory: &[u32], o: u32, l: u8) -> Value
        ensures { let m = memory.now in let t = self.now.before in
            ((p : List ℕ) → Placed p (M.reactor m o) t l → result ≡ M.value_at p m o l) }
    {
        let i = self.index(o, l);
        pair(memory, i)
    }

    // Notes that n of the locations before l have words.
    pub(crate) fn note(&mut self, l: u8, n: u8)
        ensures { self.new.before ≡ set self.old.before l n }
    {
        self.before[l as usize] = n;
    }

    // Sources and D commands all have words: the first n locations.
    fn lay_first(&mut self, n: u8)
        ensures { let t = self.new.before in
            ((p : List ℕ) (r : ℕ) → n ≤ L.source_count p r + B.commands_d p r → PlacedTo p r t n) }
    {
        for l in 0..n {
            self.note(l, l);
        }
    }

    // The n R commands from byte `at` on, behind the first locations.
    fn lay_rest(&mut self, program: &[u8], at: usize, first: u8, n: u8)
        requires n_in_bounds { at + 8 * n ≤ length program.now }
        requires n_bound { first + n < 256 }
        ensures { let p = program.now in
            ((r : ℕ) → at ≡ B.command_at p r (B.commands_d p r)
            → first ≡ L.source_count p r + B.commands_d p r → n ≤ B.commands_r p r
            → PlacedTo p r self.old.before first → PlacedTo p r self.new.before (first + n)) }
    {
        let mut m = first;
        for j in 0..n {
            self.note(first + j, m);
            m += result_of(program[at + 8 * (j as usize)]);
        }
    }

    // The first locations of a reactor, and its first n R commands, which begin at byte `at`.
    pub(crate) fn lay(&mut self, program: &[u8], at: usize, first: u8, n: u8)
        requires n_in_bounds { at + 8 * n ≤ length program.now }
        requires n_bound { first + n < 256 }
        ensures { let p = program.now in
            ((r : ℕ) → at ≡ B.command_at p r (B.commands_d p r)
            → first ≡ L.source_count p r + B.commands_d p r → n ≤ B.commands_r p r
            → PlacedTo p r self.new.before (first + n)) }
    {
        self.lay_first(first);
        self.lay_rest(program, at, first, n)
    }
}
