// The ways in which a step may give a fact, and what they need: entering comes before returning.
ghost use Rattle.std.specs.Prelude.{cond, ◌≡◌, eqb, Some, None};
ghost use Rattle.product.specs.Facts.{head, triple};
ghost use Rattle.table.specs.Places.{fact_of};
ghost use Rattle.model.specs.Answers.{meant};
ghost use Rattle.explain.specs.Answers.{cause_by, found_as};
ghost use Rattle.explain.specs.Search.{step_of, sooner, later, given_by};

use crate::{Cause, Made};
use model::Rule;
use table::Fact;

// A cause by the step, if the symbol a that it gives is the symbol g that is asked for.
fn caused(
    made: Made,
    a: usize,
    g: usize,
    before: Option<Fact>,
    first: Option<Fact>,
    second: Option<Fact>,
) -> Option<Cause>
    ensures { result ≡ cond (eqb a g) (Some (cause_by made.step.rule made.step.by before first second)) None }
{
    if a != g {
        return None;
    }
    Some(Cause {
        rule: made.step.rule,
        by: made.step.by,
        before,
        first,
        second,
    })
}

// The head (q, g), entered by a direct step or a call.
fn entered(made: Made, q: usize, g: usize) -> Option<Cause>
    ensures { result ≡ found_as (given_by (head q g) (sooner (head q g) (step_of made.step.rule made.step.by) made.step.free made.end (meant made.rule))) }
{
    if made.end != q {
        return None;
    }
    match made.rule {
        Rule::Exit(_) => None,
        Rule::Direct(a, g1) | Rule::Call(a, g1, _) => {
            let before = Some(Fact::Head(made.step.free, a));
            caused(made, g1, g, before, None, None)
        }
    }
}

// The head (q, g), returned to after a call.
fn returned(made: Made, q: usize, g: usize) -> Option<Cause>
    ensures { result ≡ found_as (given_by (head q g) (later (head q g) (step_of made.step.rule made.step.by) made.step.free made.end (meant made.rule))) }
{
    match made.rule {
        Rule::Exit(_) | Rule::Direct(_, _) => None,
        Rule::Call(a, g1, g2) => {
            let before = Some(Fact::Head(made.step.free, a));
            let first = Some(Fact::Triple(made.end, g1, q));
            caused(made, g2, g, before, first, None)
        }
    }
}

// The triple (q, g, e) by a step from the state q.
fn erased(made: Made, q: usize, g: usize, e: usize) -> Option<Cause>
    ensures { result ≡ found_as (given_by (triple q g e) (sooner (triple q g e) (step_of made.step.rule made.step.by) made.step.free made.end (meant made.rule))) }
{
    match made.rule {
        Rule::Exit(a) => {
            if made.end != e {
                return None;
            }
            caused(made, a, g, None, None, None)
        }
        Rule::Direct(a, g1) => {
            let first = Some(Fact::Triple(made.end, g1, e));
            caused(made, a, g, None, first, None)
        }
        Rule::Call(a, g1, g2) => {
            let first = Some(Fact::Triple(made.end, g1, made.step.free));
            let second = Some(Fact::Triple(made.step.free, g2, e));
            caused(made, a, g, None, first, second)
        }
    }
}

// Of the two ways that a step may have to give a fact, the one that comes first.
pub(crate) fn first(made: Made, f: Fact) -> Option<Cause>
    ensures { result ≡ found_as (given_by (fact_of f) (sooner (fact_of f) (step_of made.step.rule made.step.by) made.step.free made.end (meant made.rule))) }
{
    match f {
        Fact::Head(q, g) => entered(made, q, g),
        Fact::Triple(q, g, e) => erased(made, q, g, e),
    }
}

// And the second.
pub(crate) fn second(made: Made, f: Fact) -> Option<Cause>
    ensures { result ≡ found_as (given_by (fact_of f) (later (fact_of f) (step_of made.step.rule made.step.by) made.step.free made.end (meant made.rule))) }
{
    match f {
        Fact::Head(q, g) => returned(made, q, g),
        Fact::Triple(_, _, _) => None,
    }
}
