// The passes of soundness. Each goes over the deployments twice: to change a table for each, and to
// find the lowest that is unfit then.
ghost use Rattle.std.specs.Prelude.{◌<◌, ◌≡◌};
ghost use Rattle.program.specs.Bytes as B;
ghost use Rattle.image.specs.Memory as M;
ghost use Rattle.image.specs.Passes as P;
ghost use Rattle.image.specs.Clauses.{starts_on, judged};

use crate::Pass;
use crate::table::{TABLE_BYTES, mark_start, put_table_byte, table_byte};
use crate::tiled::Tiled;
use crate::tiling::following;
use crate::words::{MAIN_AT, MOST_DEPTH};

impl Tiled<'_> {
    // What a pass does for the deployment at o. The two later ones could be functions lent to the walks;
    // a bound on a function of a `Tiled` binds its lifetime, and such a call has no proof.
    fn visit(&self, pass: Pass, table: &mut [u8], o: u32)
        requires { M.reactor self.now.memory.now o < B.reactors self.now.program.now }
        ensures { let p = self.now.program.now in let m = self.now.memory.now in
            table.new ≡ P.visit p m pass table.old o }
    {
        match pass {
            Pass::Starts => mark_start(table, o),
            Pass::Names => self.name_children(table, o),
            Pass::Depths => self.deepen_children(table, o),
        }
    }

    // Whether the deployment at a is as it has to be after a pass.
    fn fits(&self, pass: Pass, table: &[u8], a: u32) -> bool
        requires { M.reactor self.now.memory.now a < B.reactors self.now.program.now }
        ensures { let p = self.now.program.now in let m = self.now.memory.now in
            result ≡ P.fits p m pass table.now a }
    {
        let n = table_byte(table, a);
        match pass {
            Pass::Starts => self.own_sound(table, a),
            Pass::Names => n == 1,
            Pass::Depths => n <= MOST_DEPTH,
        }
    }

    // Visits each deployment.
    fn visit_all(&self, pass: Pass, table: &mut [u8])
        ensures { let p = self.now.program.now in let m = self.now.memory.now in
            table.new ≡ P.over (P.visit p m pass) table.old (starts_on p m self.now.u M.main_at) }
    {
        let mut a = MAIN_AT;
        // A walk and no range: the next deployment begins where this one ends.
        while a < self.u {
            let o = a;
            a = following(self.program, self.memory, self.u, a);
            self.visit(pass, table, o);
        }
    }

    // Whether all deployments are fit; if not, the lowest that is not.
    fn all_fit(&self, pass: Pass, table: &[u8]) -> Result<(), usize>
        ensures { let p = self.now.program.now in let m = self.now.memory.now in
            result ≡ judged (P.lowest (P.fits p m pass table.now) (starts_on p m self.now.u M.main_at)) }
    {
        let mut a = MAIN_AT;
        // A walk and no range: the next deployment begins where this one ends.
        while a < self.u {
            let o = a;
            a = following(self.program, self.memory, self.u, a);
            if !self.fits(pass, table, o) {
                return Err(o as usize);
            }
        }
        Ok(())
    }

    // Goes through a pass: whether it finds all deployments fit; if not, the lowest that is not. The
    // table stays out of the frame of a turn.
    #[inline(never)]
    pub(crate) fn run_pass(&self, pass: Pass) -> Result<(), usize>
        ensures { let p = self.now.program.now in let m = self.now.memory.now in
            result ≡ judged (P.lowest_unfit p m pass (starts_on p m self.now.u M.main_at)) }
    {
        let mut table = [0u8; TABLE_BYTES];
        put_table_byte(&mut table, MAIN_AT, 1);
        self.visit_all(pass, &mut table);
        self.all_fit(pass, &table)
    }
}
