// The primitives on values, by number.
#![tactic(auto, using(crate::proofs::Rows::past), unfolding(crate::specs::Open::opened))]

ghost use Rattle.std.specs.Prelude.{◌≡◌};
ghost use Rattle.std.proofs.Math.Bool as Bool;
ghost use Rattle.value.specs.Primitive as Op;
ghost use Rattle.value.specs.Clauses.{number_of};

use crate::arithmetic::operate;
use crate::formula::{mix, one_minus};
use crate::integer::signed;
use crate::table::{Primitive, UnknownPrimitive};
use crate::{Operation, Value};

// The primitives on two numbers: blank unless both are.
pub(crate) fn on_numbers(f: Operation, a: Value, b: Value) -> Value
    ensures { result ≡ Op.on_numbers (Op.operation f) a b }
{
    if a.mark != Value::NUMBER {
        return Value::blank();
    }
    if b.mark != Value::NUMBER {
        return Value::blank();
    }
    operate(f, signed(a.content), signed(b.content))
}

// Without a test: where a is no truth, both words are 0, and that is blank.
pub(crate) fn not(a: Value) -> Value
    ensures { result ≡ Op.on_truth Bool.not a }
{
    let known = (a.mark == Value::TRUTH) as u32;
    Value {
        mark: known * Value::TRUTH,
        content: known * one_minus(a.content == 1),
    }
}

// Whether v is the truth t.
fn settles(t: bool, v: Value) -> bool
    ensures { result ≡ Op.settles t v }
{
    (v.mark == Value::TRUTH) & ((v.content == 1) == t)
}

// `and` is settled by false, `or` by true; of two other truths they are the other one.
pub(crate) fn settled_by(t: bool, a: Value, b: Value) -> Value
    ensures { result ≡ Op.settled_by t a b }
{
    if settles(t, a) | settles(t, b) {
        return Value::truth(t);
    }
    if (a.mark == Value::TRUTH) & (b.mark == Value::TRUTH) {
        return Value::truth(!t);
    }
    Value::blank()
}

pub(crate) fn known(a: Value) -> Value
    ensures { result ≡ Op.known a }
{
    Value::truth(a.mark != Value::BLANK)
}

// Without a test, as `not`.
pub(crate) fn choose(t: Value, a: Value, b: Value) -> Value
    ensures { result ≡ Op.choose t a b }
{
    let known = t.mark == Value::TRUTH;
    let first = t.content == 1;
    Value {
        mark: mix(known, first, a.mark, b.mark),
        content: mix(known, first, a.content, b.content),
    }
}

// Without a test, as `choose`: a value that is picked whole would stay in the frame.
pub(crate) fn instead(a: Value, b: Value) -> Value
    ensures { result ≡ Op.instead a b }
{
    let blank = a.mark == Value::BLANK;
    Value {
        mark: mix(true, blank, b.mark, a.mark),
        content: mix(true, blank, b.content, a.content),
    }
}

impl Primitive {
    // What it gives for its operands; one that it does not take is not read.
    pub(crate) fn apply(self, a: Value, b: Value, c: Value) -> Value
        ensures { result ≡ Op.primitive (number_of self) a b c }
    {
        match self {
            Primitive::Add => on_numbers(Operation::Add, a, b),
            Primitive::Subtract => on_numbers(Operation::Subtract, a, b),
            Primitive::Times => on_numbers(Operation::Times, a, b),
            Primitive::Divide => on_numbers(Operation::Divide, a, b),
            Primitive::Remainder => Value::blank(),
            Primitive::Less => on_numbers(Operation::Less, a, b),
            Primitive::Equal => on_numbers(Operation::Equal, a, b),
            Primitive::Not => not(a),
            Primitive::And => settled_by(false, a, b),
            Primitive::Or => settled_by(true, a, b),
            Primitive::Known => known(a),
            Primitive::Choose => choose(a, b, c),
            Primitive::Instead => instead(a, b),
            Primitive::TickDifference => on_numbers(Operation::TickDifference, a, b),
        }
    }
}

// Primitive `op` of its operands. A number that is no primitive's, and 4, which is withdrawn, give
// blank.
pub fn primitive(op: u8, a: Value, b: Value, c: Value) -> Value
    ensures { result ≡ Op.primitive op a b c }
{
    match Primitive::try_from(op) {
        Ok(primitive) => primitive.apply(a, b, c),
        Err(UnknownPrimitive) => Value::blank(),
    }
}
