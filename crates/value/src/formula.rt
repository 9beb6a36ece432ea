// 1.25 Truths as numbers, 0 or 1, so that sums and products stand where a test would.
ghost use Rattle.std.specs.Prelude.{◌≡◌};
ghost use Rattle.value.specs.Formula.{one_minus, mixed};

// The word of the other truth.
pub(crate) fn one_minus(t: bool) -> u32
    ensures { result ≡ one_minus t }
{
    1 - t as u32
}

// The word a on true, b on false, 0 where the truth is not known.
pub(crate) fn mix(known: bool, t: bool, a: u32, b: u32) -> u32
    ensures { result ≡ mixed known t a b }
{
    (known as u32) * (t as u32) * a + (known as u32) * one_minus(t) * b
}
