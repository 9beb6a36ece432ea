// Names by their places in the text.
#![tactic(auto, unfolding(crate::proofs::Opens::names))]

ghost use Rattle.std.specs.Prelude.{ℕ, List, ◌≡◌, ◌++◌};
ghost use Rattle.value.specs.Test.{◌or◌};
ghost use Rattle.haai.specs.Word as O;
ghost use Rattle.haai.specs.Names as I;
ghost use Rattle.haai.specs.Places as J;
ghost use Rattle.haai.specs.Clauses.{place_in, words_at};

use crate::word::{same, sign_of, taken_of, word_end};
use crate::{Meant, Operator, Places, Tally};
use program::put;

// Whether the word that begins at a is w.
fn same_at(t: &[u8], a: usize, w: &[u8]) -> bool
    ensures { result ≡ O.same_word (J.word_of t.now a) w.now }
{
    if t.len() <= a {
        return w.len() == 0;
    }
    let e = word_end(t, a);
    &t[a..e] == w
}

// The first of some names, by their places, that is w.
fn position(t: &[u8], names: &[usize], w: &[u8]) -> Option<usize>
    ensures { result ≡ place_in (words_at t.now names.now) w.now }
{
    names.iter().position(|place| same_at(t, *place, w))
}

fn among(t: &[u8], names: &[usize], w: &[u8]) -> bool
    ensures { result ≡ O.among (words_at t.now names.now) w.now }
{
    position(t, names, w).is_some()
}

fn is_taken(w: &[u8]) -> bool
    ensures { result ≡ O.among O.taken_words w.now }
{
    taken_of(w).is_some()
}

fn is_time(w: &[u8]) -> bool
    ensures { result ≡ O.same_word O.time_bytes w.now }
{
    same(b"time", w)
}

impl Tally {
    fn source_places(self, places: &Places) -> &[usize]
        requires { J.Fits self }
        ensures { (t : List ℕ) → words_at t result.now ≡ J.sources_in t places.now self }
    {
        &places.sources[..self.sources]
    }

    fn reactor_places(self, places: &Places) -> &[usize]
        requires { J.Fits self }
        ensures { (t : List ℕ) → words_at t result.now ≡ J.reactors_in t places.now self }
    {
        &places.reactors[..self.reactors]
    }

    // Those of all parameters.
    fn name_places(self, places: &Places) -> &[usize]
        requires { J.Fits self }
        ensures { (t : List ℕ) → words_at t result.now ≡ J.names_in t places.now self }
    {
        &places.parameters[..self.names]
    }

    // Those of the present reactor's parameters.
    fn parameter_places(self, places: &Places) -> &[usize]
        requires { J.Fits self }
        ensures { (t : List ℕ) → words_at t result.now ≡ J.parameters_in t places.now self }
    {
        &places.parameters[self.own..self.names]
    }

    fn is_source(self, t: &[u8], places: &Places, w: &[u8]) -> bool
        requires { J.Fits self }
        ensures { result ≡ O.among (J.sources_in t.now places.now self) w.now }
    {
        among(t, self.source_places(places), w)
    }

    fn is_reactor(self, t: &[u8], places: &Places, w: &[u8]) -> bool
        requires { J.Fits self }
        ensures { result ≡ O.among (J.reactors_in t.now places.now self) w.now }
    {
        among(t, self.reactor_places(places), w)
    }

    fn is_name(self, t: &[u8], places: &Places, w: &[u8]) -> bool
        requires { J.Fits self }
        ensures { result ≡ O.among (J.names_in t.now places.now self) w.now }
    {
        among(t, self.name_places(places), w)
    }

    pub(crate) fn is_parameter(self, t: &[u8], places: &Places, w: &[u8]) -> bool
        requires { J.Fits self }
        ensures { result ≡ O.among (J.parameters_in t.now places.now self) w.now }
    {
        among(t, self.parameter_places(places), w)
    }

    fn fresh_source(self, t: &[u8], places: &Places, w: &[u8]) -> bool
        requires { J.Fits self }
        ensures { result ≡ I.fresh (J.sources_in t.now places.now self) w.now }
    {
        !(is_taken(w) | self.is_source(t, places, w))
    }

    fn fresh_reactor(self, t: &[u8], places: &Places, w: &[u8]) -> bool
        requires { J.Fits self }
        ensures { let text = t.now in let ps = places.now in
            result ≡ I.fresh (J.sources_in text ps self ++ (J.reactors_in text ps self ++ J.names_in text ps self))
            w.now }
    {
        !(is_taken(w)
            | (self.is_source(t, places, w)
                | (self.is_reactor(t, places, w) | self.is_name(t, places, w))))
    }

    fn fresh_parameter(self, t: &[u8], places: &Places, w: &[u8]) -> bool
        requires { J.Fits self }
        ensures { let text = t.now in let ps = places.now in
            result ≡ I.fresh (J.sources_in text ps self ++ (J.reactors_in text ps self ++ J.parameters_in text ps self))
            w.now }
    {
        !(is_taken(w)
            | (self.is_source(t, places, w)
                | (self.is_reactor(t, places, w) | self.is_parameter(t, places, w))))
    }

    // Whether an operand may be w: a parameter, a source or the time.
    pub(crate) fn fit_operand(self, t: &[u8], places: &Places, w: &[u8]) -> bool
        requires { J.Fits self }
        ensures { let text = t.now in let ps = places.now in let word = w.now in
            result ≡ (O.among (J.parameters_in text ps self) word or (O.among (J.sources_in text ps self) word
            or O.same_word O.time_bytes word)) }
    {
        self.is_parameter(t, places, w) | (self.is_source(t, places, w) | is_time(w))
    }

    // The lowest fault, with one more at q unless ok.
    pub(crate) fn blame(self, ok: bool, q: usize) -> Tally
        ensures { result ≡ J.blamed ok q self }
    {
        if ok || self.fault <= q {
            return self;
        }
        Tally { fault: q, ..self }
    }

    pub(crate) fn add_source(self, t: &[u8], a: usize, w: &[u8], places: &mut Places) -> Tally
        requires { J.Fits self }
        ensures { let text = t.now in let ps = places.old in
            J.held result places.new ≡ J.source_held text a w.now self ps }
    {
        let ok = self.fresh_source(t, places, w);
        put(&mut places.sources, self.sources, a);
        Tally {
            sources: self.sources + 1,
            ..self.blame(ok, a)
        }
    }

    pub(crate) fn add_reactor(self, t: &[u8], a: usize, w: &[u8], places: &mut Places) -> Tally
        requires { J.Fits self }
        ensures { let text = t.now in let ps = places.old in
            J.held result places.new ≡ J.reactor_held text a w.now self ps }
    {
        let ok = self.fresh_reactor(t, places, w);
        put(&mut places.reactors, self.reactors, a);
        Tally {
            reactors: self.reactors + 1,
            own: self.names,
            at: a,
            ..self.blame(ok, a)
        }
    }

    pub(crate) fn add_parameter(self, t: &[u8], a: usize, w: &[u8], places: &mut Places) -> Tally
        requires { J.Fits self }
        ensures { let text = t.now in let ps = places.old in
            J.held result places.new ≡ J.parameter_held text a w.now self ps }
    {
        let ok = self.fresh_parameter(t, places, w);
        put(&mut places.parameters, self.names, a);
        Tally {
            names: self.names + 1,
            ..self.blame(ok, a)
        }
    }

    // The sign that w is, or the reactor with that name; after them all if it is none.
    pub(crate) fn operator_of(self, t: &[u8], places: &Places, w: &[u8]) -> Operator
        requires { J.Fits self }
        ensures { let text = t.now in let ps = places.now in
            result ≡ J.operator_in (J.reactors_in text ps self) w.now }
    {
        if let Some(sign) = sign_of(w) {
            return Operator::Sign(sign);
        }
        let reactor = position(t, self.reactor_places(places), w);
        Operator::Reactor(reactor.unwrap_or(self.reactors))
    }

    // The source that w is, counted from 1; 0 if it is none.
    fn source_of(self, t: &[u8], places: &Places, w: &[u8]) -> Meant
        requires { J.Fits self }
        ensures { result ≡ J.global_in (J.sources_in t.now places.now self) w.now }
    {
        match position(t, self.source_places(places), w) {
            Some(source) => Meant::Global(source + 1),
            None => Meant::Global(0),
        }
    }

    // What an operand's name stands for.
    pub(crate) fn meant(self, t: &[u8], places: &Places, w: &[u8]) -> Meant
        requires { J.Fits self }
        ensures { let text = t.now in let ps = places.now in
            result ≡ J.meant_in (J.parameters_in text ps self) (J.sources_in text ps self) w.now }
    {
        match position(t, self.parameter_places(places), w) {
            Some(parameter) => Meant::Parameter(parameter),
            None => self.source_of(t, places, w),
        }
    }
}
