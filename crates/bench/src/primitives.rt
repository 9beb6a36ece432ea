// 1.11 to 1.24 The bench cases about primitives: bounds, blanks, and the tables of `and` and `or`.
use crate::text::Shown;
use std::io;
use value::Value;

// Numbers, since `value::primitive` takes the byte of a command.
const ADD: u8 = 0;

const SUBTRACT: u8 = 1;

const TIMES: u8 = 2;

const DIVIDE: u8 = 3;

const LESS: u8 = 5;

const EQUAL: u8 = 6;

const NOT: u8 = 7;

const AND: u8 = 8;

const OR: u8 = 9;

const KNOWN: u8 = 10;

const CHOOSE: u8 = 11;

const INSTEAD: u8 = 12;

const TICK_DIFFERENCE: u8 = 13;

const LOWEST: i32 = i32::MIN;

const HIGHEST: i32 = i32::MAX;

// A line `a sign b = result`.
fn infix(rt: &impl Print, a: Value, op: u8, sign: &str, b: Value) -> io::Result<()> {
    let result = value::primitive(op, a, b, Value::blank());
    println!(rt; "{}{sign}{} = {}", Shown(a), Shown(b), Shown(result))
}

fn numbers(rt: &impl Print, x: i32, op: u8, sign: &str, y: i32) -> io::Result<()> {
    infix(rt, Value::number(x), op, sign, Value::number(y))
}

// A line `name a = result`.
fn prefix(rt: &impl Print, op: u8, name: &str, a: Value) -> io::Result<()> {
    let result = value::primitive(op, a, Value::blank(), Value::blank());
    println!(rt; "{name}{} = {}", Shown(a), Shown(result))
}

// A line `t ? a : b = result`.
fn choice(rt: &impl Print, t: Value, a: Value, b: Value) -> io::Result<()> {
    let result = value::primitive(CHOOSE, t, a, b);
    println!(rt;
        "{} ? {} : {} = {}",
        Shown(t),
        Shown(a),
        Shown(b),
        Shown(result)
    )
}

fn starred(rt: &impl Print) -> io::Result<()> {
    numbers(rt, LOWEST, DIVIDE, " / ", -1)?;
    numbers(rt, -7, DIVIDE, " / ", 2)?;
    infix(rt, Value::blank(), LESS, " < ", Value::number(5))
}

// 1.9, 1.14 Results that do not fit, and a divisor of 0: blank.
fn bounds(rt: &impl Print) -> io::Result<()> {
    numbers(rt, HIGHEST, ADD, " + ", 0)?;
    numbers(rt, HIGHEST, ADD, " + ", 1)?;
    numbers(rt, LOWEST, SUBTRACT, " - ", 1)?;
    numbers(rt, 65536, TIMES, " * ", 32768)?;
    numbers(rt, 65536, TIMES, " * ", -32768)?;
    numbers(rt, 7, DIVIDE, " / ", 0)?;
    numbers(rt, 7, DIVIDE, " / ", -2)?;
    numbers(rt, -1, LESS, " < ", 0)?;
    numbers(rt, 5, EQUAL, " == ", 5)
}

// A blank operand of 0 to 7 gives blank; known, choose and instead have rules of their own.
fn blanks(rt: &impl Print) -> io::Result<()> {
    infix(rt, Value::blank(), EQUAL, " == ", Value::blank())?;
    infix(rt, Value::number(7), ADD, " + ", Value::blank())?;
    prefix(rt, NOT, "not ", Value::truth(true))?;
    prefix(rt, NOT, "not ", Value::blank())?;
    prefix(rt, KNOWN, "known ", Value::number(0))?;
    prefix(rt, KNOWN, "known ", Value::blank())?;
    choice(rt, Value::truth(true), Value::number(1), Value::blank())?;
    choice(rt, Value::truth(false), Value::blank(), Value::number(2))?;
    choice(rt, Value::blank(), Value::number(3), Value::number(3))?;
    infix(rt, Value::number(7), INSTEAD, " instead ", Value::number(9))?;
    infix(rt, Value::blank(), INSTEAD, " instead ", Value::number(9))
}

// On either side false settles an and, true an or.
fn settled(rt: &impl Print) -> io::Result<()> {
    let blank = Value::blank();
    infix(rt, Value::truth(false), AND, " and ", blank)?;
    infix(rt, blank, AND, " and ", Value::truth(false))?;
    infix(rt, Value::truth(true), AND, " and ", blank)?;
    infix(rt, Value::truth(true), OR, " or ", blank)?;
    infix(rt, blank, OR, " or ", Value::truth(true))?;
    infix(rt, Value::truth(false), OR, " or ", blank)
}

// The difference of ticks goes round at 32 bits.
fn ticks(rt: &impl Print) -> io::Result<()> {
    let since = " since ";
    numbers(rt, LOWEST, TICK_DIFFERENCE, since, HIGHEST)?;
    numbers(rt, HIGHEST, TICK_DIFFERENCE, since, LOWEST)?;
    numbers(rt, 0, TICK_DIFFERENCE, since, LOWEST)?;
    numbers(rt, -5, TICK_DIFFERENCE, since, -5)?;
    numbers(rt, 5, TICK_DIFFERENCE, since, 7)?;
    infix(rt, Value::blank(), TICK_DIFFERENCE, since, Value::number(5))?;
    infix(rt, Value::number(5), TICK_DIFFERENCE, since, Value::blank())
}

pub fn print_all(rt: &impl Print) -> io::Result<()> {
    starred(rt)?;
    bounds(rt)?;
    blanks(rt)?;
    settled(rt)?;
    ticks(rt)
}
