// The words of a text: where they are, and what each is by its bytes.
#![tactic(auto, unfolding(crate::proofs::Opens::words))]

ghost use Rattle.std.specs.Prelude.{◌+◌, ◌-◌, ◌*◌, ◌≤◌, ◌<◌, ◌≡◌, length};
ghost use Rattle.haai.specs.Word as O;
ghost use Rattle.haai.specs.Clauses.{is_part, most, capped, magnitude_of, number_of, sign_of, taken_of};

use crate::{Class, Sign, Taken};
use program::byte;

// A number is counted up to here, one more than any magnitude of 32 bits.
const MOST: u64 = 2147483649;

fn is_space(c: u8) -> bool
    ensures { result ≡ O.is_space c }
{
    (c == b' ') | (c == b'\n')
}

fn is_bracket(c: u8) -> bool
    ensures { result ≡ O.is_bracket c }
{
    (c == b'(') | (c == b')')
}

// The tests of a byte are joined by `|`, of which the compiler makes one test of bits; with a jump for each, a word
// takes nearly twice the instructions a byte.
fn ends_word(c: u8) -> bool
    ensures { result ≡ O.ends_word c }
{
    is_space(c) | is_bracket(c)
}

// The first byte from i on that is no space; the text's length if there is none.
pub(crate) fn word_start(t: &[u8], i: usize) -> usize
    requires { i ≤ length t.now }
    ensures { result ≡ O.word_start t.now i }
{
    for j in i..t.len() {
        if !is_space(t[j]) {
            return j;
        }
    }
    t.len()
}

// The byte after the word or bracket that begins at i.
pub(crate) fn word_end(t: &[u8], i: usize) -> usize
    requires { i < length t.now }
    ensures { result ≡ O.word_end t.now i }
{
    if is_bracket(t[i]) {
        return i + 1;
    }
    for j in i..t.len() {
        if ends_word(t[j]) {
            return j;
        }
    }
    t.len()
}

// Whether two words are the same.
pub(crate) fn same(a: &[u8], b: &[u8]) -> bool
    ensures { result ≡ O.same_word a.now b.now }
{
    a == b
}

fn is_letter(c: u8) -> bool
    ensures { result ≡ O.is_letter c }
{
    c.is_ascii_lowercase()
}

fn is_digit(c: u8) -> bool
    ensures { result ≡ O.is_digit c }
{
    c.is_ascii_digit()
}

fn is_part(c: u8) -> bool
    ensures { result ≡ is_part c }
{
    is_letter(c) || is_digit(c) || c == b'-'
}

fn is_name(w: &[u8]) -> bool
    ensures { result ≡ O.is_name w.now }
{
    is_letter(byte(w, 0)) && w.len() <= 16 && w.iter().all(|c| is_part(*c))
}

// One digit more; 2,147,483,649 and more count as that.
fn with_digit(v: u64, c: u8) -> u64
    requires { v ≤ most }
    ensures { result ≡ capped (10 * v + (c - 48)) }
{
    (10 * v + u64::from(c.saturating_sub(b'0'))).min(MOST)
}

fn all_digits(w: &[u8]) -> bool
    ensures { result ≡ O.every O.is_digit w.now }
{
    w.iter().all(|c| is_digit(*c))
}

// What digits come to, if a word is of digits.
fn magnitude(digits: &[u8]) -> Option<u64>
    ensures { result ≡ magnitude_of digits.now }
{
    if digits.is_empty() || !all_digits(digits) {
        return None;
    }
    let mut v = 0;
    for c in digits {
        v = with_digit(v, *c);
    }
    Some(v)
}

// The number that a word is, in two's complement.
fn number_of(w: &[u8]) -> Option<u32>
    ensures { result ≡ number_of w.now }
{
    match w.strip_prefix(b"-") {
        Some(digits) => {
            let m = magnitude(digits)?;
            if m < MOST {
                Some((m as u32).wrapping_neg())
            } else {
                None
            }
        }
        None => {
            let m = magnitude(w)?;
            if m < MOST - 1 { Some(m as u32) } else { None }
        }
    }
}

// Which sign a word is.
pub(crate) fn sign_of(w: &[u8]) -> Option<Sign>
    ensures { result ≡ sign_of w.now }
{
    if same(b"+", w) {
        Some(Sign::Plus)
    } else if same(b"-", w) {
        Some(Sign::Minus)
    } else if same(b"*", w) {
        Some(Sign::Times)
    } else if same(b"/", w) {
        Some(Sign::Divide)
    } else {
        None
    }
}

// Which taken word a word is.
pub(crate) fn taken_of(w: &[u8]) -> Option<Taken>
    ensures { result ≡ taken_of w.now }
{
    if same(b"time", w) {
        Some(Taken::Time)
    } else if same(b"defr", w) {
        Some(Taken::Defr)
    } else if same(b"out", w) {
        Some(Taken::Out)
    } else if same(b"source", w) {
        Some(Taken::Source)
    } else {
        None
    }
}

// What a word is.
fn class_of(w: &[u8]) -> Class
    ensures { result ≡ O.class_of w.now }
{
    if same(w, b"(") {
        Class::Open
    } else if same(w, b")") {
        Class::Shut
    } else if let Some(sign) = sign_of(w) {
        Class::Sign(sign)
    } else if let Some(n) = number_of(w) {
        Class::Number(n)
    } else if let Some(taken) = taken_of(w) {
        Class::Taken(taken)
    } else if is_name(w) {
        Class::Name
    } else {
        Class::Other
    }
}

// What the word from a to before e is.
pub(crate) fn class_at(t: &[u8], a: usize, e: usize) -> Class
    requires { (a ≤ e) × (e ≤ length t.now) }
    ensures { result ≡ O.class_of (O.bytes_of t.now a e) }
{
    class_of(&t[a..e])
}
