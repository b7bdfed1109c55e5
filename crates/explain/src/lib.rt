// The explanation of a fact in a table of ranks: the first rule, then the first move, then the lowest state whose needed facts all have lower rank.
#![tactic(auto)]

ghost use Rattle.std.specs.Prelude.{◌≡◌, suc};
ghost use Rattle.table.specs.Places.{fact_of};
ghost use Rattle.table.specs.Looked.{ranks_in};
ghost use Rattle.explain.specs.Answers.{search_in, found_as, explained};

use lent::Lent;
use model::Rule;
use table::{Fact, Table};

mod ways; // the ways in which a step may give a fact
mod why; // a step tried for a fact

// How many rules and moves a model has.
#[derive(Clone, Copy)]
pub struct Counts {
    pub rules: usize,
    pub moves: usize,
}

// An explanation: its rule and move, the head before the step, and the triples that are run after it.
#[derive(Clone, Copy)]
pub struct Cause {
    pub rule: usize,
    pub by: usize,
    pub before: Option<Fact>,
    pub first: Option<Fact>,
    pub second: Option<Fact>,
}

// What is asked: the fact, and the rank that what it needs may have at most.
#[derive(Clone, Copy)]
struct Ask {
    f: Fact,
    k: u16,
}

// A step that is tried: its rule and move, and the one free state.
#[derive(Clone, Copy)]
struct Step {
    rule: usize,
    by: usize,
    free: usize,
}

// A step that is made: the state that it leads to, and its rule.
#[derive(Clone, Copy)]
struct Made {
    step: Step,
    end: usize,
    rule: Rule,
}

// By the first rule, then the first move, then the lowest state whose needed facts all have rank at most k.
fn first_cause(m: &Lent, table: &Table<'_>, n: Counts, f: Fact, k: u16) -> Option<Cause>
    ensures { result ≡ found_as (search_in m.now table.now n (suc k) (fact_of f)) }
{
    let states = table.size.states as usize;
    let ask = Ask { f, k };
    // The description asks for one nested search, left from inside by a label.
    'found: {
        for r in 0..n.rules {
            for v in 0..n.moves {
                for x in 0..states {
                    let s = Step {
                        rule: r,
                        by: v,
                        free: x,
                    };
                    if let Some(c) = why::tried(m, table, ask, s) {
                        break 'found Some(c);
                    }
                }
            }
        }
        None
    }
}

// The explanation of the fact that is asked for, if one is; a fact of rank 0 has none.
pub fn explain(m: &Lent, table: &Table<'_>, n: Counts, f: Option<Fact>) -> Option<Cause>
    ensures { result ≡ found_as (explained (search_in m.now table.now n) (ranks_in table.now) f) }
{
    let d = f?;
    let k = table.rank_at(d);
    if k == 0 {
        return None;
    }
    first_cause(m, table, n, d, k - 1)
}
