// A signal value in two words, and the primitives on values: section 1 of the manual.
//
// Every function is total: it is proved equal to a definition of specs/ for every pair of words
// that can come, so no caller has to know that a word is legal. To primitives 0 to 9 and 13 an operand
// of the wrong kind, which no accepted program passes, counts as blank.
#![tactic(auto)]

mod arithmetic;
mod formula;
mod integer;
mod kinds;
mod primitives;
mod table;

ghost use Rattle.std.specs.Prelude.{◌≡◌};
ghost use Rattle.value.specs.Value as W;

pub use integer::{signed, word};
pub use kinds::Kind;
pub use primitives::primitive;
pub use table::{is_primitive, is_withdrawn, kinds_fit, operands};

// A mark and a content. A blank has content 0, a number its two's complement, a truth 0 or 1, a
// reactor its number. The mark is a number and no enum, since the two are words of memory, which a
// caller in C hands over and the definitions speak of: any may come.
#[derive(Clone, Copy, Debug, PartialEq, Eq)]
pub struct Value {
    pub mark: u32,
    pub content: u32,
}

impl Value {
    pub const BLANK: u32 = 0;

    pub const NUMBER: u32 = 1;

    pub const TRUTH: u32 = 2;

    pub const REACTOR: u32 = 3;

    // These three stand in memory alone, the last within a turn: a blank that is kept.
    pub const DEPLOYMENT: u32 = 4;

    pub const POINT: u32 = 5;

    pub const KEPT: u32 = 6;

    pub fn blank() -> Value
        ensures { result ≡ W.blank }
    {
        Value {
            mark: Value::BLANK,
            content: 0,
        }
    }

    pub fn number(z: i32) -> Value
        ensures { result ≡ W.number z }
    {
        Value {
            mark: Value::NUMBER,
            content: word(z),
        }
    }

    pub fn truth(t: bool) -> Value
        ensures { result ≡ W.truth t }
    {
        Value {
            mark: Value::TRUTH,
            content: t as u32,
        }
    }
}

// 1.10 What a primitive takes.
#[derive(Clone, Copy)]
pub enum Takes {
    TwoNumbers,
    OneTruth,
    TwoTruths,
    OneOfAny,
    TruthThenTwo,
    TwoAlike,
}

// The kind that a primitive gives: a number; a truth; the kind of its last two operands.
#[derive(Clone, Copy)]
pub enum Gives {
    ANumber,
    ATruth,
    TheirKind,
}

// The primitives on two numbers.
#[derive(Clone, Copy)]
pub enum Operation {
    Add,
    Subtract,
    Times,
    Divide,
    Less,
    Equal,
    TickDifference,
}
