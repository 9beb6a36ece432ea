// 4.30 Which reactor reaches which, by one step or more, in the table of steps; and the lowest that reaches
// itself.
ghost use Rattle.std.specs.Prelude.{ℕ, ◌≤◌, ◌<◌, ◌≡◌, Bool, false, List, length, get_or};
ghost use Rattle.value.specs.Test.{◌or◌};
ghost use Rattle.program.specs.Bytes as B;
ghost use Rattle.figure.specs.Steps as N;
ghost use Rattle.figure.specs.Clauses.{Table, Lowest, through_at};

// A row takes over what another has.
fn join_row(to: &mut [bool; 64], from: &[bool; 64])
    ensures { let t = to.old in let f = from.now in
        ((q : ℕ) → q < 64 → get_or to.new q false ≡ (get_or t q false or get_or f q false)) }
{
    for q in 0..64 {
        to[q] |= from[q];
    }
}

// Ways that meet at reactor k are joined.
fn join_at(table: &mut [[bool; 64]; 64], k: u8, n: u8)
    requires { (k < n) × (n ≤ 64) }
    ensures long { length table.new ≡ 64 }
    ensures joined { let t = table.old in let t₁ = table.new in
        ((f : ℕ → ℕ → Bool) → Table t n f → Table t₁ n (through_at k f)) }
{
    let from = table[k as usize];
    for r in 0..n {
        if table[r as usize][k as usize] {
            join_row(&mut table[r as usize], &from);
        }
    }
}

// The table of steps becomes that of ways.
pub(crate) fn close(table: &mut [[bool; 64]; 64], n: u8)
    requires { n ≤ 64 }
    ensures { let t = table.old in let t₁ = table.new in
        ((p : List ℕ) → n ≡ B.reactors p → Table t n (N.leads p) → Table t₁ n (N.found (N.reached p))) }
{
    for k in 0..n {
        join_at(table, k, n);
    }
}

// Whether r is main, or main reaches it, and r reaches itself.
fn circular(table: &[[bool; 64]; 64], main: u8, n: u8, r: u8) -> bool
    requires { (main < n) × (r < n) × (n ≤ 64) }
    ensures { (p : List ℕ) → main ≡ B.main_of p → Table table.now n (N.found (N.reached p))
        → result ≡ N.circular p (N.reached p) r }
{
    let from_main = (r == main) | table[main as usize][r as usize];
    from_main & table[r as usize][r as usize]
}

// The lowest such reactor.
pub(crate) fn lowest(table: &[[bool; 64]; 64], main: u8, n: u8) -> Option<u8>
    requires { (main < n) × (n ≤ 64) }
    ensures { (p : List ℕ) → n ≡ B.reactors p → main ≡ B.main_of p → Table table.now n (N.found (N.reached p))
        → Lowest p result }
{
    for r in 0..n {
        if circular(table, main, n, r) {
            return Some(r);
        }
    }
    None
}
