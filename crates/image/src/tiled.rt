// A grown image as its test goes over it.
ghost use Rattle.image.specs.Memory as M;
ghost use Rattle.image.specs.Clauses.{Positions, Tiling};

// Deployments tile the words from main's up to u. Where each reactor's commands begin is summed up
// once for all.
#[derive(Clone, Copy)]
pub(crate) struct Tiled<'a> {
    pub program: &'a [u8],
    pub places: &'a [u32],
    pub memory: &'a [u32],
    pub u: u32,
    ghost positions: { Positions program.now places.now },
    ghost tiling: { Tiling program.now memory.now u M.main_at },
}
