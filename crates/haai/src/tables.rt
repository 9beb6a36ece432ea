// The bytes before the commands: header, kinds, shapes and entries.
ghost use Rattle.std.specs.Prelude.{◌+◌, ◌*◌, ◌≤◌, ◌≡◌, length, replicate};
ghost use Rattle.image.specs.Memory.{patch};
ghost use Rattle.haai.specs.Writing as Q;

use crate::Size;
use crate::write::{put_bytes, put_command};
use program::Header;

fn put_zeros(out: &mut [u8], at: usize, n: usize)
    requires { at + n ≤ length out.old }
    ensures { out.new ≡ patch out.old at (replicate n 0) }
{
    out[at..at + n].fill(0);
}

fn put_shapes(out: &mut [u8], at: usize, sizes: &[Size])
    requires { (at + 16 * length sizes.now ≤ length out.old) × (length sizes.now ≤ 32) }
    ensures { out.new ≡ patch out.old at (Q.shapes_by sizes.now) }
{
    for (j, size) in sizes.iter().enumerate() {
        let shape = at + 16 * j;
        put_command(out, shape, size.parameters, size.sinks, 0, 0, 0);
        put_command(out, shape + 8, 0, 0, 0, 0, 0);
    }
}

fn put_entries(out: &mut [u8], at: usize, sizes: &[Size])
    requires { (at + 4 * length sizes.now ≤ length out.old) × (length sizes.now ≤ 32) }
    ensures { out.new ≡ patch out.old at (Q.entries_by 0 sizes.now) }
{
    for (j, size) in sizes.iter().enumerate() {
        put_bytes(out, at + 4 * j, &[j as u8, size.declared, size.running, 0]);
    }
}

// The tables of definitions of these sizes and of g sources.
pub(crate) fn write_tables(out: &mut [u8], sizes: &[Size], g: usize)
    requires { let n = length sizes.now in (n ≤ 32) × ((g ≤ 31) × (8 + g + 20 * n ≤ length out.old)) }
    ensures { out.new ≡ patch out.old 0 (Q.tables_of sizes.now g) }
{
    let n = sizes.len();
    put_command(out, 0, Header::FORMAT, n as u8, n as u8, g as u8, 0);
    put_zeros(out, 8, g);
    put_shapes(out, 8 + g, sizes);
    put_entries(out, 8 + g + 16 * n, sizes);
}
