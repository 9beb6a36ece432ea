// The table of primitives: their numbers, and the columns that the load check reads.
#![tactic(auto, using(crate::proofs::Rows::past), unfolding(crate::specs::Open::opened))]

ghost use Rattle.std.specs.Prelude.{◌≡◌};
ghost use Rattle.value.specs.Primitive as Op;
ghost use Rattle.value.specs.Clauses.{number_of};

use crate::{Kind, Takes};

// 1.10 The primitives, with their numbers in a program. The remainder is withdrawn.
#[derive(Clone, Copy)]
pub(crate) enum Primitive {
    Add = 0,
    Subtract = 1,
    Times = 2,
    Divide = 3,
    Remainder = 4,
    Less = 5,
    Equal = 6,
    Not = 7,
    And = 8,
    Or = 9,
    Known = 10,
    Choose = 11,
    Instead = 12,
    TickDifference = 13,
}

// A number that is no primitive's.
#[derive(Clone, Copy)]
pub(crate) struct UnknownPrimitive;

impl TryFrom<u8> for Primitive {
    ghost use Rattle.value.specs.Clauses.{Coded};

    type Error = UnknownPrimitive;

    ghost try_from_gives = { Coded };

    fn try_from(op: u8) -> Result<Self, UnknownPrimitive> {
        match op {
            0 => Ok(Primitive::Add),
            1 => Ok(Primitive::Subtract),
            2 => Ok(Primitive::Times),
            3 => Ok(Primitive::Divide),
            4 => Ok(Primitive::Remainder),
            5 => Ok(Primitive::Less),
            6 => Ok(Primitive::Equal),
            7 => Ok(Primitive::Not),
            8 => Ok(Primitive::And),
            9 => Ok(Primitive::Or),
            10 => Ok(Primitive::Known),
            11 => Ok(Primitive::Choose),
            12 => Ok(Primitive::Instead),
            13 => Ok(Primitive::TickDifference),
            _ => Err(UnknownPrimitive),
        }
    }
}

impl Primitive {
    pub(crate) fn takes(self) -> Takes
        ensures { result ≡ (Op.row_of (number_of self)).takes }
    {
        match self {
            Primitive::Add | Primitive::Subtract | Primitive::Times => Takes::TwoNumbers,
            Primitive::Divide | Primitive::Remainder => Takes::TwoNumbers,
            Primitive::Less | Primitive::Equal => Takes::TwoNumbers,
            Primitive::Not => Takes::OneTruth,
            Primitive::And | Primitive::Or => Takes::TwoTruths,
            Primitive::Known => Takes::OneOfAny,
            Primitive::Choose => Takes::TruthThenTwo,
            Primitive::Instead => Takes::TwoAlike,
            Primitive::TickDifference => Takes::TwoNumbers,
        }
    }
}

pub fn is_primitive(op: u8) -> bool
    ensures { result ≡ Op.is_primitive op }
{
    Primitive::try_from(op).is_ok()
}

// Whether the check refuses it by name.
pub fn is_withdrawn(op: u8) -> bool
    ensures { result ≡ Op.is_withdrawn op }
{
    op == Primitive::Remainder as u8
}

pub(crate) fn takes_of(op: u8) -> Takes
    ensures { result ≡ (Op.row_of op).takes }
{
    match Primitive::try_from(op) {
        Ok(primitive) => primitive.takes(),
        Err(UnknownPrimitive) => Takes::OneOfAny,
    }
}

// How many operands primitive `op` takes.
pub fn operands(op: u8) -> u8
    ensures { result ≡ Op.operands op }
{
    match takes_of(op) {
        Takes::TwoNumbers => 2,
        Takes::OneTruth => 1,
        Takes::TwoTruths => 2,
        Takes::OneOfAny => 1,
        Takes::TruthThenTwo => 3,
        Takes::TwoAlike => 2,
    }
}

// Whether operands of the kinds j, k, l will do; the kind of one that is not taken is not read.
pub fn kinds_fit(op: u8, j: u8, k: u8, l: u8) -> bool
    ensures { result ≡ Op.kinds_fit (Op.row_of op).takes j k l }
{
    match takes_of(op) {
        Takes::TwoNumbers => (Kind::from(j) == Kind::Number) & (Kind::from(k) == Kind::Number),
        Takes::OneTruth => Kind::from(j) == Kind::Truth,
        Takes::TwoTruths => (Kind::from(j) == Kind::Truth) & (Kind::from(k) == Kind::Truth),
        Takes::OneOfAny => true,
        Takes::TruthThenTwo => (Kind::from(j) == Kind::Truth) & (k == l),
        Takes::TwoAlike => j == k,
    }
}
