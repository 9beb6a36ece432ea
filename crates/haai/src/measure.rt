// Sizes of a program, by the sizes of its definitions.
#![tactic(auto, unfolding(crate::proofs::Opens::tree))]

ghost use Rattle.std.specs.Prelude.{◌≤◌, ◌≡◌, length};
ghost use Rattle.haai.specs.Tables as Y;

use crate::Size;

impl Size {
    fn fits(self) -> bool
        ensures { result ≡ Y.size_fits self }
    {
        self.declared <= 32 && self.running <= 128
    }

    // How many bytes its commands take.
    fn length(self) -> usize
        ensures { (result ≡ Y.size_length self) × (result ≤ 4080) }
    {
        8 * (self.declared as usize + self.running as usize)
    }
}

// 18: whether no definition has more than 32 D or 128 R commands.
pub(crate) fn fits(sizes: &[Size]) -> bool
    ensures { result ≡ Y.sizes_fit sizes.now }
{
    sizes.iter().all(|size| size.fits())
}

// How many bytes the commands of the definitions take.
pub(crate) fn code_length(sizes: &[Size]) -> usize
    requires { length sizes.now ≤ 32 }
    ensures { (result ≡ Y.sizes_length sizes.now) × (result ≤ 130560) }
{
    let mut total = 0;
    for size in sizes {
        total += size.length();
    }
    total
}
