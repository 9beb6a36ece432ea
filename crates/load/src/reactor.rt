// The commands of one reactor, from its first to its end.
ghost use Rattle.std.specs.Prelude.{ℕ, ◌+◌, ◌≤◌, ◌<◌, ◌≡◌, get_or};
ghost use Rattle.program.specs.Location as L;
ghost use Rattle.load.specs.Clauses.{blank, state, Sweeping, Ran};
ghost use Rattle.load.specs.Scan as S;

use crate::known::Known;
use crate::standing::settled;
use crate::{Location, Locations, Progress};
use answer::Refusal;
use program::source_kind;

impl Known<'_> {
    // Each source is a value.
    fn with_sources(&self, locations: &mut Locations)
        ensures { let k = self.now in let p = k.program.now in
            state locations.new 0 ≡ S.with_sources (L.source_count p k.reactor) p k.reactor (state locations.old 0) }
    {
        for x in 0..self.sources {
            let k = source_kind(self.program, self.shape, x);
            locations.stand(x as usize, Location::VALUE, k);
        }
    }

    // No own sink is set. Not one function with the above: of a source the kind is read, of a sink there is none.
    fn with_sinks(&self, locations: &mut Locations)
        ensures { let k = self.now in let p = k.program.now in
            state locations.new 0 ≡ S.with_sinks (L.sink_count p k.reactor) p k.reactor (state locations.old 0) }
    {
        let first = self.first_sink();
        for x in 0..self.sinks {
            locations.stand(first + x as usize, Location::UNSET_SINK, 0);
        }
    }

    // Takes all commands of the reactor, up to one that is refused: how many have a result.
    pub(crate) fn scan(&self, locations: &mut Locations) -> Result<u8, Refusal>
        requires blank { locations.old ≡ blank }
        ensures { let k = self.now in Ran k.program.now k.reactor locations.new result }
    {
        self.with_sources(locations);
        self.with_sinks(locations);
        let mut s = Progress {
            next: 0,
            results: 0,
        };
        for i in 0..self.declared + self.running {
            let c = self.command(i);
            let Some(then) = s.take(self, locations, c) else {
                return Err(self.refusal(locations, i));
            };
            s = then;
        }
        Ok(s.results as u8)
    }
}

impl Locations {
    // Whether the 16 locations from `at` on are settled. The loop has no way out, so that it can go many
    // locations at a time.
    fn settled_from(&self, at: usize) -> bool
        requires { at ≤ 158 }
        ensures { Sweeping self.now.standing at 16 result }
    {
        let mut all = true;
        for l in at..at + 16 {
            all &= settled(self.standing[l]);
        }
        all
    }

    // Whether no React, AllocPoly, Keep or sink is missing at the end of a reactor of n locations. They are
    // looked at 16 at a time, the last 16 of the table some of them twice.
    pub(crate) fn complete(&self, n: usize) -> bool
        requires small { n < 2000 }
        requires within { (l : ℕ) → n ≤ l → get_or self.now.standing l 0 ≡ 0 }
        ensures { (m : ℕ) → result ≡ S.complete (state self.now m) }
    {
        let mut all = true;
        for k in 0..n.div_ceil(16) {
            all &= self.settled_from((16 * k).min(158));
        }
        all
    }
}
