// What the lines of the bench show, as text.
use machine::{Answer, number, place};
use std::fmt;
use value::Value;

// `number, place`.
#[derive(Clone, Copy)]
pub struct Told(pub Answer);

impl fmt::Display for Told {
    fn fmt<W: fmt::Write>(&self, f: &mut fmt::Formatter<W>) -> fmt::Result {
        write!(f, "{}, {}", number(self.0), place(self.0))
    }
}

#[derive(Clone, Copy)]
pub struct Shown(pub Value);

impl fmt::Display for Shown {
    fn fmt<W: fmt::Write>(&self, f: &mut fmt::Formatter<W>) -> fmt::Result {
        let content = self.0.content;
        match self.0.mark {
            Value::BLANK => write!(f, "blank"),
            Value::NUMBER => write!(f, "{}", value::signed(content)),
            _ => write!(f, "{}", content == 1),
        }
    }
}

// The values of pairs of words, each after a space.
#[derive(Clone, Copy)]
pub struct Pairs<'a>(pub &'a [u32]);

impl fmt::Display for Pairs<'_> {
    fn fmt<W: fmt::Write>(&self, f: &mut fmt::Formatter<W>) -> fmt::Result {
        let (pairs, _) = self.0.as_chunks::<2>();
        for pair in pairs {
            let [mark, content] = *pair;
            write!(f, " {}", Shown(Value { mark, content }))?;
        }
        Ok(())
    }
}

// Words, each after a space; of the zeros at the end only how many.
#[derive(Clone, Copy)]
pub struct Words<'a>(pub &'a [u32]);

impl fmt::Display for Words<'_> {
    fn fmt<W: fmt::Write>(&self, f: &mut fmt::Formatter<W>) -> fmt::Result {
        let n = written(self.0);
        for word in self.0.iter().take(n) {
            write!(f, " {word}")?;
        }
        if n < self.0.len() {
            write!(f, " and {} zeros", self.0.len() - n)?;
        }
        Ok(())
    }
}

// How many words there are up to the last that is not zero.
fn written(words: &[u32]) -> usize {
    for i in (0..words.len()).rev() {
        if words[i] != 0 {
            return i + 1;
        }
    }
    0
}
