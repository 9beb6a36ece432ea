// The chain of a branch point.
ghost use Rattle.std.specs.Prelude.{◌+◌, ◌≡◌, get_or, replicate};
ghost use Rattle.value.specs.Test.{◌and◌, ◌<?◌, ◌=?◌};
ghost use Rattle.program.specs.Bytes as B;
ghost use Rattle.image.specs.Memory as M;
ghost use Rattle.image.specs.Passes as P;

use crate::table::is_start;
use crate::tiled::Tiled;
use crate::words::{next, reactor, used};
use program::{byte, put, reactors, shape_of};

// Whether c is a deployment above its owner o and below the one before it on the chain.
pub(crate) fn linked(table: &[u8], o: u32, last: u32, c: u32) -> bool
    ensures { result ≡ ((o <? c) and (c <? last) and P.is_start table.now c) }
{
    (o < c) & (c < last) & is_start(table, c)
}

// Whether reactor r has shape s and has not been seen.
pub(crate) fn joins(program: &[u8], seen: &[u8], s: u8, r: u32) -> bool
    ensures { result ≡ ((B.shape_of program.now r =? s) and (get_or seen.now r 0 =? 0)) }
{
    (shape_of(program, r) == s) & (byte(seen, r as usize) == 0)
}

impl Tiled<'_> {
    // Whether the chain from `head` is one of strictly falling indices, all above the owner o, of shape
    // s, no reactor twice.
    pub(crate) fn chain_sound(&self, table: &[u8], o: u32, s: u8, head: u32) -> bool
        ensures { let p = self.now.program.now in let m = self.now.memory.now in
            result ≡ P.chain_from p m (B.reactors p + 1) table.now o s (M.used m) (replicate 64 0) head }
    {
        // Bytes and no truths: chain_from, the definition, has a list of numbers.
        let mut seen = [0u8; 64];
        let mut last = used(self.memory);
        let mut c = head;
        for _ in 0..reactors(self.program) {
            if c < 1 {
                return true;
            }
            if !linked(table, o, last, c) {
                return false;
            }
            let r = reactor(self.memory, c);
            if !joins(self.program, &seen, s, r) {
                return false;
            }
            put(&mut seen, r as usize, 1);
            last = c;
            c = next(self.memory, c);
        }
        c < 1
    }
}
