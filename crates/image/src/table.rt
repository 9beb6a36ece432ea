// Tables of bytes, a byte for each three words of memory. A deployment takes three words or more, so
// that no two begin in the same three.
ghost use Rattle.std.specs.Prelude.{◌≡◌};
ghost use Rattle.image.specs.Passes as P;

use program::{byte, put};

// 16,384 words, rounded up.
pub(crate) const TABLE_BYTES: usize = 5462;

// The entry of the deployment at c, and 0 past the end.
pub(crate) fn table_byte(table: &[u8], c: u32) -> u8
    ensures { result ≡ P.table_byte table.now c }
{
    byte(table, (c / 3) as usize)
}

// Makes it v; does nothing past the end.
pub(crate) fn put_table_byte(table: &mut [u8], c: u32, v: u8)
    ensures { table.new ≡ P.with_table_byte table.old c v }
{
    put(table, (c / 3) as usize, v)
}

// What marks a start: in which of its three words it is.
fn start_byte(c: u32) -> u8
    ensures { result ≡ P.start_byte c }
{
    1 + (c % 3) as u8
}

// Marks that a deployment begins at o.
pub(crate) fn mark_start(table: &mut [u8], o: u32)
    ensures { table.new ≡ P.with_table_byte table.old o (P.start_byte o) }
{
    let b = start_byte(o);
    put_table_byte(table, o, b)
}

// Whether a deployment begins at c.
pub(crate) fn is_start(table: &[u8], c: u32) -> bool
    ensures { result ≡ P.is_start table.now c }
{
    table_byte(table, c) == start_byte(c)
}
