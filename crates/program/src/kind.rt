// Which marks and contents values of a kind have.
#![tactic(auto, unfolding(crate::specs::Open::opened))]

ghost use Rattle.std.specs.Prelude.{◌≡◌};
ghost use Rattle.value.specs.Value as W;
ghost use Rattle.program.specs.Kind as K;

use crate::bytes::reactors;
use crate::entry::shape_of;
use value::{Kind, Value};

// A number's content may be any; a truth's is 0 or 1; a reactor's is one of the program's, of the
// kind's shape. For constants and readings.
pub fn content_legal(program: &[u8], kind: u8, content: u32) -> bool
    ensures { result ≡ K.content_legal program.now kind content }
{
    match Kind::from(kind) {
        Kind::Number => true,
        Kind::Truth => content < 2,
        Kind::Reactor(shape) => content < reactors(program) as u32
            && shape_of(program, content) == shape,
    }
}

// The mark of a kind's values that are not blank.
pub fn mark_of(kind: u8) -> u32
    ensures { result ≡ W.mark_of kind }
{
    match Kind::from(kind) {
        Kind::Number => Value::NUMBER,
        Kind::Truth => Value::TRUTH,
        Kind::Reactor(_) => Value::REACTOR,
    }
}

// Whether v is blank or a value of the kind.
pub fn legal(program: &[u8], kind: u8, v: Value) -> bool
    ensures { result ≡ K.legal program.now kind v }
{
    (v == Value::blank()) | ((v.mark == mark_of(kind)) & content_legal(program, kind, v.content))
}
