// An accepted program as a turn goes by it.
ghost use Rattle.machine.specs.Clauses.{Loaded};

// A program that the check accepts, with the facts of each reactor that it noted. A turn lends the pair on as one word,
// down to the deepest run.
#[derive(Clone, Copy)]
pub(crate) struct Accepted<'a> {
    pub program: &'a [u8],
    pub facts: &'a [u64; 64],
    ghost loaded: { Loaded program.now facts.now },
}
