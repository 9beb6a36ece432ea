// 4.30 Which reactor leads to which: a table with a row for each reactor, and in row r an entry for each q.
ghost use Rattle.std.specs.Prelude.{ℕ, ◌≤◌, ◌<◌, ◌≡◌, false, get_or};
ghost use Rattle.program.specs.Bytes as B;
ghost use Rattle.program.specs.Clauses.{Facts, Tells};
ghost use Rattle.image.specs.Clauses.{made};
ghost use Rattle.figure.specs.Steps as N;
ghost use Rattle.figure.specs.Clauses.{Table};

use image::{Makes, makes_at};
use program::{Counts, fact, shape_of};

// Whether a D command that makes this may come to deploy q.
fn goes_to(program: &[u8], makes: Makes, q: u8) -> bool
    ensures { result ≡ N.goes_to program.now q (made makes) }
{
    match makes {
        Makes::Deployment(r) => r == q,
        Makes::Point(s) => shape_of(program, q as u32) == s,
        Makes::Cell(_) => false,
        Makes::Nothing => false,
    }
}

// Whether a reactor leads to q.
fn leads(program: &[u8], k: Counts, q: u8) -> bool
    ensures { let p = program.now in
        ((r : ℕ) → Tells p r k.word → result ≡ N.leads p r q) }
{
    let at = k.at() as usize;
    let n = k.commands_d();
    let mut some = false;
    for j in 0..n {
        some |= goes_to(program, makes_at(program, at + 8 * j as usize), q);
    }
    some
}

// Row r: which of the n reactors it leads to.
fn row_of(program: &[u8], k: Counts, n: u8) -> [bool; 64]
    requires { n ≤ 64 }
    ensures { let p = program.now in
        ((r : ℕ) → Tells p r k.word → (q : ℕ) → q < n → get_or result q false ≡ N.leads p r q) }
{
    let mut row = [false; 64];
    for q in 0..n {
        row[q as usize] = leads(program, k, q);
    }
    row
}

// All rows.
pub(crate) fn fill_steps(program: &[u8], facts: &[u64; 64], table: &mut [[bool; 64]; 64], n: u8)
    requires count { n ≡ B.reactors program.now }
    requires facts { Facts program.now facts.now }
    ensures { Table table.new n (N.leads program.now) }
{
    for r in 0..n {
        table[r as usize] = row_of(program, fact(facts, r as u32), n);
    }
}
