// 6.18 to 6.20 The commands of cells, one function each. What is kept waits in the Keep's own slot until
// the turn completes: Fetch reads a cell as the turn found it, and a refused turn leaves every cell.
ghost use Rattle.std.specs.Prelude.{ℕ, ◌+◌, ◌≤◌, ◌<◌, ◌≡◌, List, length, Ok};
ghost use Rattle.program.specs.Command as C;
ghost use Rattle.image.specs.Memory as M;
ghost use Rattle.remus.specs.Cells as Cells;
ghost use Rattle.machine.specs.Clauses.{Acts, Here};

use crate::Outcome;
use crate::command::give;
use image::pair_within;
use value::Value;

// A value as the slot of a Keep that has run holds it. A blank slot is that of one that has not.
fn pending(v: Value) -> Value
    ensures { result ≡ Cells.pending v }
{
    if v.mark == Value::BLANK {
        return Value {
            mark: Value::KEPT,
            content: 0,
        };
    }
    v
}

// The value again.
pub(crate) fn kept(v: Value) -> Value
    ensures { result ≡ Cells.kept v }
{
    if v.mark == Value::KEPT {
        return Value::blank();
    }
    v
}

// 12 Fetch: the content of the cell at b.
pub(crate) fn fetch(memory: &mut [u32], here: usize, b: usize) -> Outcome
    requires here_in_bounds { here + 1 < length memory.old }
    requires b_le_here { b ≤ here }
    ensures { let m = memory.old in
        ((p : List ℕ) (h o i k : ℕ) → b ≡ M.slot p m o k → Here p m o i here
        → Acts p h m o i (C.gives (C.fetch k)) (Ok result) memory.new) }
{
    let v = pair_within(memory, b);
    give(memory, here, v)
}

// 13 Keep: the value at a waits to be a cell's content.
pub(crate) fn keep(memory: &mut [u32], here: usize, a: usize) -> Outcome
    requires here_in_bounds { here + 1 < length memory.old }
    requires a_le_here { a ≤ here }
    ensures { let m = memory.old in
        ((p : List ℕ) (h o i j k : ℕ) → a ≡ M.slot p m o j → Here p m o i here
        → Acts p h m o i (C.keep j k) (Ok result) memory.new) }
{
    let v = pair_within(memory, a);
    let waits = pending(v);
    give(memory, here, waits)
}
