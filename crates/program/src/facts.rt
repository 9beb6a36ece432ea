// What is asked of a reactor most often, as one number: where its commands begin, and how many
// sources, D commands, R commands, R commands with a result and sinks it has.
//
// It is asked for again and again while an image is tested and while deployments run. So the check
// notes it once for each reactor, in a table that is lent on.
#![tactic(auto, using(crate::proofs::Slots::slot_low, crate::proofs::Slots::slot_high))]

ghost use Rattle.std.specs.Prelude.{ℕ, ◌+◌, ◌≤◌, ◌<◌, ◌≡◌, ◌≢◌, List};
ghost use Rattle.value.specs.Test.{◌=?◌};
ghost use Rattle.program.specs.Bytes as B;
ghost use Rattle.program.specs.Location as L;
ghost use Rattle.program.specs.Clauses.{Facts, Tells};

use crate::Counts;
use crate::location::HEAD_WORDS;

impl Counts {
    // The number that tells this of a reactor, whose commands begin at byte `at`.
    pub fn new(at: u32, sources: u8, declared: u8, running: u8, results: u8, sinks: u8) -> Counts
        ensures { (p : List ℕ) (r : ℕ) → at < 16777216 → at ≡ B.commands_at p r → sources ≡ L.source_count p r
            → declared ≡ B.commands_d p r → running ≡ B.commands_r p r → results ≡ L.results p r (B.commands_r p r)
            → sinks ≡ L.sink_count p r → Tells p r result.word }
    {
        Counts {
            word: (at % 16777216) as u64
                + 16777216 * (sources as u64)
                + 4294967296 * (declared as u64)
                + 1099511627776 * (running as u64)
                + 281474976710656 * (results as u64)
                + 72057594037927936 * (sinks as u64),
        }
    }

    // Whether there is none.
    pub fn none(self) -> bool
        ensures { result ≡ (self.word =? 0) }
    {
        self.word == 0
    }

    // The byte at which the commands begin.
    pub fn at(self) -> u64
        ensures is { (p : List ℕ) (r : ℕ) → Tells p r self.word → result ≡ B.commands_at p r }
        ensures small { result < 16777216 }
    {
        self.word % 16777216
    }

    pub fn source_count(self) -> u8
        ensures { (p : List ℕ) (r : ℕ) → Tells p r self.word → result ≡ L.source_count p r }
    {
        (self.word / 16777216 % 256) as u8
    }

    // D commands.
    pub fn commands_d(self) -> u8
        ensures { (p : List ℕ) (r : ℕ) → Tells p r self.word → result ≡ B.commands_d p r }
    {
        (self.word / 4294967296 % 256) as u8
    }

    // R commands.
    pub fn commands_r(self) -> u8
        ensures { (p : List ℕ) (r : ℕ) → Tells p r self.word → result ≡ B.commands_r p r }
    {
        (self.word / 1099511627776 % 256) as u8
    }

    // R commands that have a result.
    pub fn results(self) -> u8
        ensures { (p : List ℕ) (r : ℕ) → Tells p r self.word → result ≡ L.results p r (B.commands_r p r) }
    {
        (self.word / 281474976710656 % 256) as u8
    }

    pub fn sink_count(self) -> u8
        ensures { (p : List ℕ) (r : ℕ) → Tells p r self.word → result ≡ L.sink_count p r }
    {
        (self.word / 72057594037927936) as u8
    }

    // The location of the first R command.
    pub fn first(self) -> u16
        ensures is { (p : List ℕ) (r : ℕ) → Tells p r self.word → result ≡ L.source_count p r + B.commands_d p r }
        ensures few { result ≤ 255 + 255 }
    {
        self.source_count() as u16 + self.commands_d() as u16
    }

    // Where the slots of the D commands begin, from the deployment's first word.
    pub fn slots_d(self) -> u32
        ensures is { (p : List ℕ) (r : ℕ) → Tells p r self.word → result ≡ L.slot_at p r (L.source_count p r) }
        ensures small { result < 514 }
        ensures least { 2 < result }
    {
        HEAD_WORDS + 2 * (self.source_count() as u32)
    }

    // Where they end, and those of the R commands begin.
    pub fn slots_r(self) -> u32
        ensures is { let w = self.word in
            ((p : List ℕ) (r : ℕ) → Tells p r w → result ≡ L.slot_at p r (L.source_count p r + B.commands_d p r)) }
        ensures small { result < 1024 }
    {
        HEAD_WORDS + 2 * (self.first() as u32)
    }

    // Where the slot of own sink x begins.
    pub fn sink_at(self, x: u8) -> u32
        ensures is { (p : List ℕ) (r : ℕ) → Tells p r self.word → result ≡ L.slot_at p r (L.sink_loc p r x) }
        ensures small { result < 2044 }
        ensures least { 2 < result }
    {
        HEAD_WORDS + 2 * (self.first() as u32 + self.results() as u32 + x as u32)
    }

    // The words that a deployment takes.
    pub fn size(self) -> u32
        ensures is { (p : List ℕ) (r : ℕ) → Tells p r self.word → result ≡ L.size_of p r }
        ensures small { result < 2044 }
        ensures least { 2 < result }
    {
        self.sink_at(self.sink_count())
    }
}

// What a table has of reactor r: 0 past the end.
pub fn fact(facts: &[u64; 64], r: u32) -> Counts
    ensures right { (p : List ℕ) → Facts p facts.now → result.word ≢ 0 → Tells p r result.word }
    ensures legal { (p : List ℕ) → Facts p facts.now → result.word ≢ 0 → r < B.reactors p }
    ensures known { let t = facts.now in
        ((p : List ℕ) → Facts p t → r < B.reactors p → Tells p r result.word) }
{
    Counts {
        word: facts.get(r as usize).copied().unwrap_or(0),
    }
}
