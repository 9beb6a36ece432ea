// 4.31 Bounds of reactors. A sum that passes 16,384 stays at 16,385: a bound may have a hundred digits, and
// no memory has more words.
ghost use Rattle.std.specs.Prelude.{ℕ, ◌+◌, ◌≡◌, List};
ghost use Rattle.program.specs.Bytes as B;
ghost use Rattle.program.specs.Clauses.{Facts, Tells};
ghost use Rattle.image.specs.Clauses.{made};
ghost use Rattle.figure.specs.Bound as D;
ghost use Rattle.figure.specs.Clauses.{capped, Capped, up_to};

use image::{Makes, makes_at};
use program::{Counts, fact, shape_of};

// One more than the most words of a memory.
const BEYOND: u16 = 16385;

// The sum of two, or BEYOND if it is more.
fn add(a: u16, b: u16) -> u16
    ensures { result ≡ capped (a + b) }
{
    a.saturating_add(b).min(BEYOND)
}

// For each shape the bounds of its reactors together.
fn shape_sums(program: &[u8], bounds: &[u16; 256], n: u8) -> [u16; 256]
    requires { n ≡ B.reactors program.now }
    ensures { let p = program.now in
        ((b : ℕ → ℕ) → Capped bounds.now b → Capped result (D.shape_sum p b)) }
{
    let mut sums = [0u16; 256];
    for q in 0..n {
        let s = shape_of(program, q as u32) as usize;
        sums[s] = add(sums[s], bounds[q as usize]);
    }
    sums
}

// What a D command adds that makes this.
fn share(makes: Makes, bounds: &[u16; 256], sums: &[u16; 256]) -> u16
    ensures { let t = bounds.now in let s = sums.now in
        ((p : List ℕ) (b : ℕ → ℕ) → Capped t b → Capped s (D.shape_sum p b)
        → result ≡ capped (D.share p b (made makes))) }
{
    match makes {
        Makes::Deployment(r) => bounds[r as usize],
        Makes::Point(s) => sums[s as usize],
        Makes::Cell(_) => 0,
        Makes::Nothing => 0,
    }
}

// A reactor's bound.
fn bound_by(program: &[u8], k: Counts, bounds: &[u16; 256], sums: &[u16; 256]) -> u16
    ensures { let p = program.now in let t = bounds.now in let s = sums.now in
        ((r : ℕ) (b : ℕ → ℕ) → Tells p r k.word → Capped t b → Capped s (D.shape_sum p b)
        → result ≡ capped (D.bound_by p b r)) }
{
    let at = k.at() as usize;
    let n = k.commands_d();
    let mut sum = k.size() as u16;
    for j in 0..n {
        let makes = makes_at(program, at + 8 * j as usize);
        sum = add(sum, share(makes, bounds, sums));
    }
    sum
}

// All bounds anew, by those before.
fn next_bounds(program: &[u8], facts: &[u64; 64], bounds: &[u16; 256], n: u8) -> [u16; 256]
    requires count { n ≡ B.reactors program.now }
    requires facts { Facts program.now facts.now }
    ensures { let p = program.now in
        ((b : ℕ → ℕ) → Capped bounds.now b → Capped result (up_to (D.bound_by p b) (B.reactors p))) }
{
    let sums = shape_sums(program, bounds, n);
    let mut next = [0u16; 256];
    for r in 0..n {
        next[r as usize] = bound_by(program, fact(facts, r as u32), bounds, &sums);
    }
    next
}

// The bounds after as many rounds as there are reactors. Once a round changes nothing, no later one does.
pub(crate) fn bounds(program: &[u8], facts: &[u64; 64], n: u8) -> [u16; 256]
    requires count { n ≡ B.reactors program.now }
    requires facts { Facts program.now facts.now }
    ensures { Capped result (D.bound_of program.now) }
{
    let mut t = [0u16; 256];
    for _k in 0..n {
        let next = next_bounds(program, facts, &t, n);
        if t[..n as usize] == next[..n as usize] {
            return t;
        }
        t = next;
    }
    t
}
