// The primitives on two numbers, as integers.
#![tactic(auto, using(crate::proofs::Integers::results), unfolding(crate::specs::Open::opened))]

ghost use Rattle.std.specs.Prelude.{◌≡◌};
ghost use Rattle.std.specs.Prelude.{◌+ℤ◌, ◌-ℤ◌, ◌*ℤ◌, neg_ℤ};
ghost use Rattle.value.specs.Value.{number};
ghost use Rattle.value.specs.Primitive.{within, quotient, goes_round, operation};
ghost use Rattle.value.specs.Clauses.{number_or_blank};

use crate::{Operation, Value};

// A result, or blank where 32 bits do not hold it.
pub(crate) fn narrow(z: Option<i32>) -> Value
    ensures { result ≡ number_or_blank z }
{
    match z {
        Some(z) => Value::number(z),
        None => Value::blank(),
    }
}

pub(crate) fn add(x: i32, y: i32) -> Value
    ensures { result ≡ within (x +ℤ y) }
{
    narrow(x.checked_add(y))
}

pub(crate) fn subtract(x: i32, y: i32) -> Value
    ensures { result ≡ within (x -ℤ y) }
{
    narrow(x.checked_sub(y))
}

pub(crate) fn times(x: i32, y: i32) -> Value
    ensures { result ≡ within (x *ℤ y) }
{
    narrow(x.checked_mul(y))
}

// The lowest integer has no negation in 32 bits.
pub(crate) fn negate(x: i32) -> Value
    ensures { result ≡ within (neg_ℤ x) }
{
    if x == i32::MIN {
        Value::blank()
    } else {
        Value::number(-x)
    }
}

// The machine's division is not defined at the lowest integer by -1, so -1 is apart. The two operators stand
// here, and not `checked_div` and `checked_neg`, by a rule of the project (docs/DECISIONS.md, its first table).
pub(crate) fn divide(x: i32, y: i32) -> Value
    ensures { result ≡ quotient x y }
{
    match y {
        0 => Value::blank(),
        -1 => negate(x),
        _ => Value::number(x / y),
    }
}

// The difference of two counters of 32 bits, which go round: that of their words.
pub(crate) fn tick_difference(x: i32, y: i32) -> Value
    ensures { result ≡ number (goes_round x y) }
{
    let words = x.cast_unsigned().wrapping_sub(y.cast_unsigned());
    Value::number(words.cast_signed())
}

pub(crate) fn operate(f: Operation, x: i32, y: i32) -> Value
    ensures { result ≡ operation f x y }
{
    match f {
        Operation::Add => add(x, y),
        Operation::Subtract => subtract(x, y),
        Operation::Times => times(x, y),
        Operation::Divide => divide(x, y),
        Operation::Less => Value::truth(x < y),
        Operation::Equal => Value::truth(x == y),
        Operation::TickDifference => tick_difference(x, y),
    }
}
