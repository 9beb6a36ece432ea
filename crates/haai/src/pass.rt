// The pass that writes a text's commands, word by word.
ghost use Rattle.std.specs.Prelude.{◌≡◌, length};
ghost use Rattle.image.specs.Memory.{patch};
ghost use Rattle.haai.specs.Grammar as G;
ghost use Rattle.haai.specs.Emit.{code_of};
ghost use Rattle.haai.specs.Tables as Y;
ghost use Rattle.haai.specs.Writing as Q;

use crate::word::{word_end, word_start};
use crate::{Knowing, Reading, Size};

// The commands of all definitions, which have these sizes, after the tables, which end before byte `end`.
pub(crate) fn write(t: &[u8], sizes: &[Size; 32], end: usize, out: &mut [u8])
    requires { Q.Writable t.now sizes.now end out.old }
    ensures { let t = t.now in let ds = (Y.known_by (length t) (G.form_of t)).definitions in
        out.new ≡ patch out.old end (code_of ds) }
{
    let mut s = Reading::begin();
    let mut k = Knowing::begin(t.len());
    let mut ls = [0u8; 119];
    let mut a = word_start(t, 0);
    while a < t.len() {
        let e = word_end(t, a);
        let Some((role, next)) = s.take_word(t, a, e) else {
            break;
        };
        k.emit_word(t, a, e, role, sizes, end, &mut ls, out);
        k.learn_word(t, a, e, role);
        s = next;
        a = word_start(t, e);
    }
}
