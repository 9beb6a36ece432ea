// The tree of a text as it is kept: counts that stay at 200 once they reach it, the sizes of the whole definitions, and
// a pile of the open applications.
#![tactic(auto, unfolding(crate::proofs::Opens::tree))]

ghost use Rattle.std.specs.Prelude.{◌+◌, ◌≡◌, set};
ghost use Rattle.haai.specs.Tables as Y;

use crate::{Application, Operator, Sign, Size, Tree};
use program::put;

const MOST: usize = 200;

fn cap(n: usize) -> u8
    ensures { result ≡ Y.counted n }
{
    if n < MOST { n as u8 } else { 200 }
}

fn add(n: u8, k: u8) -> u8
    ensures { result ≡ Y.counted (n + k) }
{
    cap(n as usize + k as usize)
}

impl Size {
    pub(crate) const NONE: Size = Size {
        parameters: 0,
        sinks: 0,
        declared: 0,
        running: 0,
    };
}

// The size of definition j.
pub(crate) fn size_at(sizes: &[Size], j: usize) -> Size
    ensures { result ≡ Y.size_at sizes.now j }
{
    sizes.get(j).copied().unwrap_or(Size::NONE)
}

impl Application {
    pub(crate) const NONE: Application = Application {
        operator: Operator::Sign(Sign::Plus),
        at: 0,
        operands: 0,
    };

    fn with_operand(self) -> Application
        ensures { result ≡ Y.with_operand self }
    {
        Application {
            operands: add(self.operands, 1),
            ..self
        }
    }
}

// The i-th open application.
pub(crate) fn opened_at(pile: &[Application], i: usize) -> Application
    ensures { result ≡ Y.opened_at pile.now i }
{
    pile.get(i).copied().unwrap_or(Application::NONE)
}

impl Operator {
    // The AllocMonos of an application, after those of its operands.
    fn own_calls(self) -> u8
        ensures { result ≡ Y.own_calls self }
    {
        match self {
            Operator::Sign(_) => 0,
            Operator::Reactor(_) => 1,
        }
    }

    // The R commands of an application to n operands, after those of the operands.
    fn own_runs(self, n: u8) -> u8
        ensures { result ≡ Y.own_runs self n }
    {
        match self {
            Operator::Sign(_) => 1,
            Operator::Reactor(_) => add(n, 2),
        }
    }
}

impl Tree {
    pub(crate) fn ground(self) -> Tree
        ensures { result ≡ Y.grounded self }
    {
        Tree {
            definitions: self.definitions,
            count: 0,
            level: 0,
            calls: 0,
            steps: 0,
        }
    }

    // With d more AllocMonos and r more R commands.
    pub(crate) fn spent(self, d: u8, r: u8) -> Tree
        ensures { result ≡ Y.spent self d r }
    {
        Tree {
            calls: add(self.calls, d),
            steps: add(self.steps, r),
            ..self
        }
    }

    fn levelled(self, n: u8) -> Tree
        ensures { result ≡ Y.levelled self n }
    {
        Tree { level: n, ..self }
    }

    // The innermost open application.
    pub(crate) fn innermost(self, pile: &[Application]) -> Application
        ensures { result ≡ Y.innermost self pile.now }
    {
        opened_at(pile, self.level.saturating_sub(1) as usize)
    }

    // A whole expression: one more of the body, or one more operand of the innermost application.
    pub(crate) fn whole(self, pile: &mut [Application]) -> Tree
        ensures { Y.grove result pile.new ≡ Y.whole_grove self pile.old }
    {
        if self.level == 0 {
            return Tree {
                count: add(self.count, 1),
                ..self
            };
        }
        let application = self.innermost(pile);
        put(pile, self.level as usize - 1, application.with_operand());
        self
    }

    // An application of the operator o at a begins.
    pub(crate) fn open_operator(self, o: Operator, a: usize, pile: &mut [Application]) -> Tree
        ensures { Y.grove result pile.new ≡ Y.open_grove self o a pile.old }
    {
        let application = Application {
            operator: o,
            at: a,
            operands: 0,
        };
        put(pile, self.level as usize, application);
        self.levelled(add(self.level, 1))
    }

    // The innermost application is whole.
    pub(crate) fn close(self, pile: &mut [Application]) -> Tree
        ensures { Y.grove result pile.new ≡ Y.close_grove self pile.old }
    {
        let a = self.innermost(pile);
        let spent = self.spent(a.operator.own_calls(), a.operator.own_runs(a.operands));
        spent.levelled(self.level.saturating_sub(1)).whole(pile)
    }

    // The definition is whole.
    fn defined(self) -> Tree
        ensures { result ≡ Y.defined_tree self }
    {
        Tree {
            definitions: add(self.definitions, 1),
            ..self
        }
    }

    // The size of the definition with s parameters, which is whole.
    fn size(self, s: u8) -> Size
        ensures { result ≡ Y.size_of self s }
    {
        Size {
            parameters: s,
            sinks: self.count,
            declared: self.calls,
            running: add(self.steps, self.count),
        }
    }

    // The definition with s parameters is whole.
    pub(crate) fn define(self, s: u8, sizes: &mut [Size]) -> Tree
        ensures { (result ≡ Y.defined_tree self) × (sizes.new ≡ set sizes.old self.definitions (Y.size_of self s)) }
    {
        let j = self.definitions as usize;
        if j < sizes.len() {
            sizes[j] = self.size(s);
        }
        self.defined()
    }

    // Whether an operator may be applied: a sign, or a whole definition with one sink.
    pub(crate) fn callable(self, sizes: &[Size], o: Operator) -> bool
        ensures { result ≡ Y.callable_in self.definitions sizes.now o }
    {
        match o {
            Operator::Sign(_) => true,
            Operator::Reactor(j) => j < self.definitions as usize && size_at(sizes, j).sinks == 1,
        }
    }

    // How many operands an operator takes.
    pub(crate) fn takes(self, sizes: &[Size], o: Operator) -> u8
        ensures { result ≡ Y.takes_in self.definitions sizes.now o }
    {
        match o {
            Operator::Sign(_) => 2,
            Operator::Reactor(j) if j < self.definitions as usize => size_at(sizes, j).parameters,
            Operator::Reactor(_) => 0,
        }
    }
}
