// What is known of a reactor while its commands are read.
ghost use Rattle.std.specs.Prelude.{◌+◌, ◌*◌, ◌≤◌, ◌<◌, ◌≡◌, length};
ghost use Rattle.program.specs.Bytes as B;
ghost use Rattle.program.specs.Command as C;
ghost use Rattle.program.specs.Location as L;
ghost use Rattle.load.specs.Clauses.{LegalTables};

use program::{Command, byte, bytes_within, entry_at, globals, shape_at, shapes};

// A reactor of a program whose tables are legal, and what is read once for all of its commands: the byte
// at which they begin, the header's counts of shapes and globals, and the reactor's own shape and counts.
#[derive(Clone, Copy)]
pub struct Known<'a> {
    pub program: &'a [u8],
    pub first: u32,
    pub reactor: u8,
    pub shapes: u8,
    pub globals: u8,
    pub shape: u8,
    pub sources: u8,
    pub declared: u8,
    pub running: u8,
    pub sinks: u8,
    ghost legal: { LegalTables program.now },
    ghost a_reactor: { reactor < B.reactors program.now },
    ghost its_first: { first ≡ B.commands_at program.now reactor },
    ghost its_shapes: { shapes ≡ B.shapes program.now },
    ghost its_globals: { globals ≡ B.globals program.now },
    ghost its_shape: { shape ≡ B.shape_of program.now reactor },
    ghost its_sources: { sources ≡ L.source_count program.now reactor },
    ghost its_declared: { declared ≡ B.commands_d program.now reactor },
    ghost its_running: { running ≡ B.commands_r program.now reactor },
    ghost its_sinks: { sinks ≡ L.sink_count program.now reactor },
    ghost few: { declared + running ≤ 160 },
    ghost inside: { first + 8 * (declared + running) ≤ length program.now },
    ghost near: { first + 8 * (declared + running) ≤ B.most_bytes },
}

impl Known<'_> {
    // Reactor r, whose commands begin at byte `first`.
    pub(crate) fn of(program: &[u8], r: u8, first: u32) -> Known<'_>
        requires tables { LegalTables program.now }
        requires inside { (r < B.reactors program.now) × (B.tables_end program.now ≤ length program.now) }
        requires here { let p = program.now in
            (first ≡ B.commands_at p r) × (first + 8 * B.commands_in p r ≤ length p) × (length p ≤ B.most_bytes) }
        ensures { (result.program.now ≡ program.now) × (result.reactor ≡ r) }
    {
        let e = entry_at(program, r as u32);
        let shape = program[e];
        let at = shape_at(program, shape) as usize;
        Known {
            program,
            first,
            reactor: r,
            shapes: shapes(program),
            globals: globals(program),
            shape,
            sources: program[at],
            declared: program[e + 1],
            running: program[e + 2],
            sinks: program[at + 1],
        }
    }

    // The location of the first own sink.
    pub(crate) fn first_sink(&self) -> usize
        ensures is { result ≡ self.now.sources + self.now.declared + self.now.running }
        ensures small { result < 766 }
    {
        self.sources as usize + self.declared as usize + self.running as usize
    }

    // Byte k of shape s.
    pub(crate) fn port(&self, s: u8, k: u16) -> u8
        ensures { let p = self.now.program.now in
            result ≡ B.byte p (B.shape_at p s + k) }
    {
        byte(
            self.program,
            8 + self.globals as usize + 16 * (s as usize) + k as usize,
        )
    }

    // Command i.
    pub(crate) fn command(&self, i: u8) -> Command
        requires { i < self.now.declared + self.now.running }
        ensures { let k = self.now in
            result ≡ C.bytes_of k.program.now k.reactor i }
    {
        bytes_within(self.program, (self.first + 8 * (i as u32)) as usize)
    }
}
