// The form of a text, word by word: which word or bracket can come next, and what it is in the form.
#![tactic(auto, unfolding(crate::proofs::Opens::form))]

ghost use Rattle.std.specs.Prelude.{◌≤◌, ◌<◌, ◌≡◌, length};
ghost use Rattle.haai.specs.Word as O;
ghost use Rattle.haai.specs.Grammar as G;
ghost use Rattle.haai.specs.Clauses.{Room, opened_step, check_of};
ghost use Rattle.haai.specs.declared.Phase.TheVariants.{Top, Form, SourceName, SourceEnd, Head, ReactorName};
ghost use Rattle.haai.specs.declared.Phase.TheVariants.{Parameters, Body, First, Out, Operator, Operands, End};

use crate::word::{class_at, word_end, word_start};
use crate::{Class, Phase, Reading, Role, Taken};

impl Class {
    // Whether a word can be taken for a name.
    fn named(self) -> bool
        ensures { result ≡ G.named self }
    {
        matches!(self, Class::Taken(_) | Class::Name)
    }

    fn operates(self) -> bool
        ensures { result ≡ G.operates self }
    {
        matches!(self, Class::Sign(_) | Class::Taken(_) | Class::Name)
    }
}

impl Reading {
    pub(crate) fn begin() -> Reading
        ensures { result ≡ G.begin }
    {
        Reading {
            phase: Phase::Top,
            sources: 0,
            definitions: 0,
            count: 0,
            depth: 0,
            many: false,
        }
    }

    fn on_to(self, q: Phase) -> Reading
        ensures { result ≡ G.on_to q self }
    {
        Reading { phase: q, ..self }
    }

    // With n parameters or expressions, `more` if the body is an `out`.
    fn counting(self, q: Phase, n: u8, more: bool) -> Reading
        ensures { result ≡ G.counting q n more self }
    {
        Reading {
            phase: q,
            count: n,
            depth: 0,
            many: more,
            ..self
        }
    }

    fn deepened(self, q: Phase, n: u8) -> Reading
        ensures { result ≡ G.deepened q n self }
    {
        Reading {
            phase: q,
            depth: n,
            ..self
        }
    }

    fn sourced(self) -> Reading
        requires { self.sources < 255 }
        ensures { result ≡ G.sourced self }
    {
        Reading {
            sources: self.sources + 1,
            ..self.counting(Phase::Top, 0, false)
        }
    }

    fn defined(self) -> Reading
        requires { self.definitions < 255 }
        ensures { result ≡ G.defined self }
    {
        Reading {
            definitions: self.definitions + 1,
            ..self.counting(Phase::Top, 0, false)
        }
    }

    // After a whole expression with d brackets around it: an operand, an e of `out`, or the body.
    fn after_expression(self, d: u8) -> Reading
        requires { self.count < 255 }
        ensures { result ≡ G.after_expression self d }
    {
        if 0 < d {
            return self.deepened(Phase::Operands, d);
        }
        if self.many {
            return self.counting(Phase::Out, self.count + 1, true);
        }
        self.counting(Phase::End, 1, false)
    }

    fn opened(self) -> Option<(Role, Reading)>
        ensures { result ≡ opened_step self }
    {
        if self.depth < 16 {
            return Some((Role::Fixed, self.deepened(Phase::Operator, self.depth + 1)));
        }
        None
    }

    // An expression's first word.
    fn expression(self, c: Class) -> Option<(Role, Reading)>
        requires { self.count < 255 }
        ensures { result ≡ G.expression self c }
    {
        match c {
            Class::Open => self.opened(),
            Class::Number(n) => Some((Role::Constant(n), self.after_expression(self.depth))),
            Class::Taken(_) | Class::Name => {
                Some((Role::Operand, self.after_expression(self.depth)))
            }
            Class::Shut | Class::Sign(_) | Class::Other => None,
        }
    }

    fn at_top(self, c: Class) -> Option<(Role, Reading)>
        ensures { result ≡ G.step_at Top self c }
    {
        if c == Class::Open && self.definitions < 32 {
            return Some((Role::Fixed, self.on_to(Phase::Form)));
        }
        None
    }

    fn at_form(self, c: Class) -> Option<(Role, Reading)>
        ensures { result ≡ G.step_at Form self c }
    {
        if c == Class::Taken(Taken::Source) && self.definitions == 0 && self.sources < 31 {
            return Some((Role::Fixed, self.on_to(Phase::SourceName)));
        }
        if c == Class::Taken(Taken::Defr) {
            return Some((Role::Fixed, self.on_to(Phase::Head)));
        }
        None
    }

    fn at_source_name(self, c: Class) -> Option<(Role, Reading)>
        ensures { result ≡ G.step_at SourceName self c }
    {
        if c.named() {
            return Some((Role::Source, self.on_to(Phase::SourceEnd)));
        }
        None
    }

    fn at_source_end(self, c: Class) -> Option<(Role, Reading)>
        requires { self.sources < 255 }
        ensures { result ≡ G.step_at SourceEnd self c }
    {
        if c == Class::Shut {
            return Some((Role::Fixed, self.sourced()));
        }
        None
    }

    fn at_head(self, c: Class) -> Option<(Role, Reading)>
        ensures { result ≡ G.step_at Head self c }
    {
        if c == Class::Open {
            return Some((Role::Fixed, self.on_to(Phase::ReactorName)));
        }
        None
    }

    fn at_reactor_name(self, c: Class) -> Option<(Role, Reading)>
        ensures { result ≡ G.step_at ReactorName self c }
    {
        if c.named() {
            return Some((Role::Reactor, self.counting(Phase::Parameters, 0, false)));
        }
        None
    }

    fn at_parameters(self, c: Class) -> Option<(Role, Reading)>
        requires { self.count < 255 }
        ensures { result ≡ G.step_at Parameters self c }
    {
        if c == Class::Shut {
            return Some((Role::Fixed, self.counting(Phase::Body, 0, false)));
        }
        if c.named() && self.count < 7 {
            let next = self.counting(Phase::Parameters, self.count + 1, false);
            return Some((Role::Parameter, next));
        }
        None
    }

    fn at_body(self, c: Class) -> Option<(Role, Reading)>
        requires { self.count < 255 }
        ensures { result ≡ G.step_at Body self c }
    {
        if c == Class::Open {
            return Some((Role::Fixed, self.deepened(Phase::First, 1)));
        }
        self.expression(c)
    }

    fn at_first(self, c: Class) -> Option<(Role, Reading)>
        ensures { result ≡ G.step_at First self c }
    {
        if c == Class::Taken(Taken::Out) {
            return Some((Role::Fixed, self.counting(Phase::Out, 0, true)));
        }
        self.at_operator(c)
    }

    fn at_out(self, c: Class) -> Option<(Role, Reading)>
        requires { self.count < 255 }
        ensures { result ≡ G.step_at Out self c }
    {
        if c == Class::Shut && 1 <= self.count {
            return Some((Role::Fixed, self.counting(Phase::End, self.count, true)));
        }
        if self.count < 7 {
            return self.expression(c);
        }
        None
    }

    fn at_operator(self, c: Class) -> Option<(Role, Reading)>
        ensures { result ≡ G.step_at Operator self c }
    {
        if c.operates() {
            return Some((Role::Operator, self.on_to(Phase::Operands)));
        }
        None
    }

    fn at_operands(self, c: Class) -> Option<(Role, Reading)>
        requires { self.count < 255 }
        ensures { result ≡ G.step_at Operands self c }
    {
        if c == Class::Shut {
            return Some((
                Role::Apply,
                self.after_expression(self.depth.saturating_sub(1)),
            ));
        }
        self.expression(c)
    }

    fn at_end(self, c: Class) -> Option<(Role, Reading)>
        requires { self.definitions < 255 }
        ensures { result ≡ G.step_at End self c }
    {
        if c == Class::Shut {
            return Some((Role::Define, self.defined()));
        }
        None
    }

    // Takes in one word, or refuses it.
    pub(crate) fn step(self, c: Class) -> Option<(Role, Reading)>
        requires { Room self }
        ensures { result ≡ G.step_of self c }
    {
        match self.phase {
            Phase::Top => self.at_top(c),
            Phase::Form => self.at_form(c),
            Phase::SourceName => self.at_source_name(c),
            Phase::SourceEnd => self.at_source_end(c),
            Phase::Head => self.at_head(c),
            Phase::ReactorName => self.at_reactor_name(c),
            Phase::Parameters => self.at_parameters(c),
            Phase::Body => self.at_body(c),
            Phase::First => self.at_first(c),
            Phase::Out => self.at_out(c),
            Phase::Operator => self.at_operator(c),
            Phase::Operands => self.at_operands(c),
            Phase::End => self.at_end(c),
        }
    }

    // The text may end here.
    fn whole(self) -> bool
        ensures { result ≡ G.whole self }
    {
        self.phase == Phase::Top && 1 <= self.definitions
    }

    // What the word from a to before e is in the form.
    pub(crate) fn take_word(self, t: &[u8], a: usize, e: usize) -> Option<(Role, Reading)>
        requires { Room self × ((a ≤ e) × (e ≤ length t.now)) }
        ensures { result ≡ G.step_of self (O.class_of (O.bytes_of t.now a e)) }
    {
        self.step(class_at(t, a, e))
    }
}

// 16: where the form first fails, at a word or at the end of the text.
pub(crate) fn form(t: &[u8]) -> Result<(), usize>
    ensures { result ≡ check_of (G.form_of t.now) }
{
    let mut s = Reading::begin();
    let mut a = word_start(t, 0);
    while a < t.len() {
        let e = word_end(t, a);
        let (_, next) = s.take_word(t, a, e).ok_or(a)?;
        s = next;
        a = word_start(t, e);
    }
    if s.whole() { Ok(()) } else { Err(t.len()) }
}
