// The decision: rounds over the two lent arrays until a violating fact is held, a round adds nothing, or the budget is spent.
#![tactic(auto)]

ghost use Rattle.std.specs.Prelude.{◌≡◌};
ghost use Rattle.lent.specs.Lending.{shape_in, of_lent, model_in};
ghost use Rattle.decide.specs.declared.DecideError.TheVariants.{Refused};
ghost use Rattle.decide.specs.Decided.{Decided};
ghost use Rattle.decide.specs.Ran.{Able, Started, Ran};

use crate::build::{first_rules, goal_of};
use crate::sets::NumberSet;
use fitting::Unfit;
use lent::Lent;
use model::Shape;
use table::{Fact, Size};

// A verdict with its rounds.
#[derive(Clone, Copy, PartialEq, Eq, Debug)]
pub enum Verdict {
    Violation(u16),
    Safe(u16),
}

// Why there is none: 6 or 7; or 8, with the budget that was spent.
#[derive(Clone, Copy, PartialEq, Eq, Debug)]
pub enum DecideError {
    Refused(Unfit),
    Spent(u32),
}

impl From<Unfit> for DecideError {
    ghost from_gives = { λ unfit e. e ≡ Refused unfit };

    fn from(unfit: Unfit) -> Self {
        DecideError::Refused(unfit)
    }
}

// What is looked for: the final states, from the start.
#[derive(Clone, Copy)]
struct Goal {
    finals: u64,
    state: usize,
    symbol: usize,
}

// After a round: whether it added a fact; the symbols with a new head; and the sets of the rules for the next round, for its triples and for its heads.
#[derive(Clone, Copy)]
struct Next {
    more: bool,
    changed: u64,
    wt: NumberSet,
    wh: NumberSet,
}

// What the rounds are run on, and leave as it is: the size, the rules, for each class the matrix of its steps, and the sets of rules by what they need.
#[derive(Clone, Copy)]
struct Given<'a> {
    size: Size,
    rules: &'a Lent,
    tg: &'a [u64; 256],
    us: &'a [u64; 384],
}

mod sets; // sets of rules and of classes
mod stamps; // the ranks of new facts
mod triples; // a round of the triples
mod heads; // a round of the heads
mod rounds; // the rounds
mod build; // what they are run on

// Round 0 in the arrays: the start head alone.
fn start(heads: &mut [u16], triples: &mut [u16], size: Size, q: usize, g: usize)
    ensures { Started size q g heads.old triples.old heads.new triples.new }
{
    table::clear(heads, size.head_count());
    table::clear(triples, size.triple_count());
    let place = size.place_of(Fact::Head(q, g));
    table::put(heads, place, 0);
}

// The rounds of a valid model, whose shape was asked for, in arrays that are long enough.
fn run(
    shape: Shape,
    m: &Lent,
    budget: u32,
    heads: &mut [u16],
    triples: &mut [u16],
) -> Result<Verdict, DecideError>
    requires shape_value { shape ≡ shape_in m.now }
    requires able { Able (of_lent shape m.now) heads.old triples.old }
    ensures { Ran (of_lent shape m.now) budget heads.old triples.old result heads.new triples.new }
{
    let size = Size {
        symbols: shape.symbols,
        states: shape.states,
    };
    let goal = goal_of(shape, m);
    start(heads, triples, size, goal.state, goal.symbol);
    let tg = steps::class_steps(m);
    let mut us = [0u64; 384];
    let first = first_rules(m, shape.rules, goal.symbol, &mut us);
    let given = Given {
        size: size,
        rules: m,
        tg: &tg,
        us: &us,
    };
    rounds::run(goal, first, given, heads, triples, budget)
}

// Decides a model within a budget of rounds, and leaves in the arrays the ranks of the facts held. Nothing is written on 6 and 7.
pub fn decide(
    m: &Lent,
    budget: u32,
    heads: &mut [u16],
    triples: &mut [u16],
) -> Result<Verdict, DecideError>
    ensures { Decided (model_in m.now) budget heads.old triples.old result heads.new triples.new }
{
    let _fit = fitting::measure(m, heads.len(), triples.len())?;
    let shape = lent::shape(m);
    run(shape, m, budget, heads, triples)
}
