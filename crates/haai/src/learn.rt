// What is known of names and of the tree after one more word of the text, w at a, in its role; and after all.
#![tactic(auto, unfolding(crate::proofs::Opens::knowing))]

ghost use Rattle.std.specs.Prelude.{◌-◌, ◌≤◌, ◌≡◌, length};
ghost use Rattle.value.specs.Test.{pick};
ghost use Rattle.haai.specs.Word as O;
ghost use Rattle.haai.specs.Grammar as G;
ghost use Rattle.haai.specs.Clauses.{check_of, right};
ghost use Rattle.haai.specs.Places as J;
ghost use Rattle.haai.specs.Tables as Y;

use crate::word::{word_end, word_start};
use crate::{Application, Found, Knowing, Places, Reading, Role, Size, Tally, Tree};

impl Tally {
    // The present reactor's parameters.
    pub(crate) fn own_names(self) -> u8
        requires { J.Fits self }
        ensures { result ≡ self.names - self.own }
    {
        (self.names - self.own) as u8
    }

    // The R commands of an operand: none if it is a parameter.
    fn own_steps(self, t: &[u8], places: &Places, w: &[u8]) -> u8
        requires { J.Fits self }
        ensures { result ≡ pick (O.among (J.parameters_in t.now places.now self) w.now) 0 1 }
    {
        if self.is_parameter(t, places, w) {
            return 0;
        }
        1
    }
}

impl Knowing {
    // Before the first word of a text of n bytes.
    pub(crate) fn begin(n: usize) -> Knowing
        ensures start { (result.tally ≡ Y.first_tally n) × (result.tree ≡ Y.first_tree) }
        ensures room { J.Roomy result.places × ((length result.sizes ≡ 32) × (length result.pile ≡ 16)) }
    {
        let tally = Tally {
            fault: n,
            sources: 0,
            reactors: 0,
            names: 0,
            own: 0,
            at: 0,
        };
        let tree = Tree {
            definitions: 0,
            count: 0,
            level: 0,
            calls: 0,
            steps: 0,
        };
        Knowing {
            tally,
            tree,
            places: Places {
                sources: [0; 31],
                reactors: [0; 32],
                parameters: [0; 224],
            },
            sizes: [Size::NONE; 32],
            pile: [Application::NONE; 16],
        }
    }

    fn learn_operand(&mut self, t: &[u8], a: usize, w: &[u8])
        requires { J.Fits self.old.tally }
        ensures { self.new ≡ Y.operand_kept t.now a w.now self.old }
    {
        let ok = self.tally.fit_operand(t, &self.places, w);
        let n = self.tally.own_steps(t, &self.places, w);
        self.tally = self.tally.blame(ok, a);
        self.tree = self.tree.spent(0, n).whole(&mut self.pile);
    }

    fn learn_constant(&mut self)
        ensures { self.new ≡ Y.constant_kept self.old }
    {
        self.tree = self.tree.spent(0, 1).whole(&mut self.pile);
    }

    fn learn_operator(&mut self, t: &[u8], a: usize, w: &[u8])
        requires { J.Fits self.old.tally }
        ensures { self.new ≡ Y.operator_kept t.now a w.now self.old }
    {
        let o = self.tally.operator_of(t, &self.places, w);
        let ok = self.tree.callable(&self.sizes, o);
        self.tally = self.tally.blame(ok, a);
        self.tree = self.tree.open_operator(o, a, &mut self.pile);
    }

    fn learn_apply(&mut self)
        ensures { self.new ≡ Y.apply_kept self.old }
    {
        let applied = self.tree.innermost(&self.pile);
        let ok = applied.operands == self.tree.takes(&self.sizes, applied.operator);
        self.tally = self.tally.blame(ok, applied.at);
        self.tree = self.tree.close(&mut self.pile);
    }

    fn learn_define(&mut self)
        requires { J.Fits self.old.tally }
        ensures { self.new ≡ Y.define_kept self.old }
    {
        let s = self.tally.own_names();
        self.tree = self.tree.define(s, &mut self.sizes);
    }

    // After one more word of the text, w at a, in its role.
    fn learn(&mut self, t: &[u8], a: usize, w: &[u8], role: Role)
        requires { J.Fits self.old.tally }
        ensures { self.new ≡ Y.learnt t.now a w.now self.old role }
    {
        match role {
            Role::Source => self.tally = self.tally.add_source(t, a, w, &mut self.places),
            Role::Reactor => {
                self.tally = self.tally.add_reactor(t, a, w, &mut self.places);
                self.tree = self.tree.ground();
            }
            Role::Parameter => self.tally = self.tally.add_parameter(t, a, w, &mut self.places),
            Role::Operand => self.learn_operand(t, a, w),
            Role::Constant(_) => self.learn_constant(),
            Role::Operator => self.learn_operator(t, a, w),
            Role::Apply => self.learn_apply(),
            Role::Define => self.learn_define(),
            Role::Fixed => {}
        }
    }

    // After the word from a to before e.
    pub(crate) fn learn_word(&mut self, t: &[u8], a: usize, e: usize, role: Role)
        requires { J.Fits self.old.tally × ((a ≤ e) × (e ≤ length t.now)) }
        ensures { let t = t.now in self.new ≡ Y.learnt t a (O.bytes_of t a e) self.old role }
    {
        self.learn(t, a, &t[a..e], role);
    }

    // At the text's end; main's name is at fault if it has parameters.
    fn found(&self) -> Found
        requires { J.Fits self.now.tally }
        ensures { result ≡ Y.found_of self.now.tally self.now.tree }
    {
        let v = self.tally;
        Found {
            fault: v.blame(v.names == v.own, v.at).fault,
            sources: v.sources,
            definitions: self.tree.definitions as usize,
        }
    }
}

// 17, and the size of each definition.
pub(crate) fn names(t: &[u8], sizes: &mut [Size; 32]) -> Found
    requires { check_of (G.form_of t.now) ≡ right }
    ensures { let t = t.now in Y.FoundIs (Y.known_by (length t) (G.form_of t)) result sizes.new }
{
    let mut s = Reading::begin();
    let mut k = Knowing::begin(t.len());
    let mut a = word_start(t, 0);
    while a < t.len() {
        let e = word_end(t, a);
        let Some((role, next)) = s.take_word(t, a, e) else {
            break;
        };
        k.learn_word(t, a, e, role);
        s = next;
        a = word_start(t, e);
    }
    *sizes = k.sizes;
    k.found()
}
