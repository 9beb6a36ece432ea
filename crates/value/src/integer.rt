// Integers of 32 bits and the words that hold them in two's complement.
ghost use Rattle.std.specs.Prelude.{◌≡◌};
ghost use Rattle.std.specs.Int.{w32};
ghost use Rattle.std.proofs.Common.{to_z, of_z};

// The integer that a word holds.
pub fn signed(w: u32) -> i32
    ensures { result ≡ to_z w32 w }
{
    w.cast_signed()
}

// The word that holds an integer.
pub fn word(z: i32) -> u32
    ensures { result ≡ of_z w32 z }
{
    z.cast_unsigned()
}
