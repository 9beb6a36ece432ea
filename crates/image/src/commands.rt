// The D commands of a deployment: what each makes, and in which slot.
ghost use Rattle.std.specs.Prelude.{◌+◌, ◌<◌, ◌≡◌};
ghost use Rattle.program.specs.Bytes as B;
ghost use Rattle.program.specs.Command as C;
ghost use Rattle.image.specs.Memory as M;
ghost use Rattle.image.specs.Clauses.{made, SlotOf, Positions};

use crate::tiled::Tiled;
use crate::words::{reactor, word};
use crate::{DSlot, Makes};
use program::{Code, byte, commands_in, reactors, source_count, tables_end};

// Fills in the byte at which each reactor's commands begin: a table that is returned is copied twice.
pub(crate) fn fill_positions(program: &[u8], places: &mut [u32; 256])
    ensures { Positions program.now places.new }
{
    let mut at = tables_end(program) as u32;
    for r in 0..reactors(program) {
        places[r as usize] = at;
        at += 8 * commands_in(program, r as u32) as u32;
    }
}

// What the D command at byte `at` makes.
pub fn makes_at(program: &[u8], at: usize) -> Makes
    requires { at < 18446744073709551615 }
    ensures { let p = program.now in
        made result ≡ C.made_by (C.decode (C.bytes_at p at)) }
{
    let x = byte(program, at + 1);
    let Ok(code) = Code::try_from(byte(program, at)) else {
        return Makes::Nothing;
    };
    match code {
        Code::AllocMono => Makes::Deployment(x),
        Code::MakePoly => Makes::Point(x),
        Code::Cell => Makes::Cell(x),
        _ => Makes::Nothing,
    }
}

impl Tiled<'_> {
    // The slot of D command j of o.
    pub(crate) fn d_slot(&self, o: u32, j: u8) -> DSlot
        requires { M.reactor self.now.memory.now o < B.reactors self.now.program.now }
        ensures { SlotOf self.now.program.now self.now.memory.now o j result }
    {
        let r = reactor(self.memory, o);
        let at = word(self.places, r as usize) as usize + 8 * j as usize;
        DSlot {
            location: source_count(self.program, r) as u16 + j as u16,
            makes: makes_at(self.program, at),
        }
    }
}
