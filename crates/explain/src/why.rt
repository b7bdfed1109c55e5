// A step tried for a fact: of the ways that give it, the first whose needed facts all have lower rank.
ghost use Rattle.std.specs.Prelude.{◌≡◌, suc};
ghost use Rattle.lent.specs.Lending.{product_in};
ghost use Rattle.table.specs.Places.{fact_of};
ghost use Rattle.table.specs.Looked.{ranks_in};
ghost use Rattle.explain.specs.Answers.{found_as, rank_of, has_all, first_has};
ghost use Rattle.explain.specs.Search.{lower, source, tried_at};

use crate::{Ask, Cause, Made, Step, ways};
use lent::Lent;
use table::{Fact, Table};

// The rank of the fact that is needed; where none is, 0.
fn rank_of(table: &Table<'_>, f: Option<Fact>) -> u16
    ensures { result ≡ rank_of (ranks_in table.now) f }
{
    let Some(d) = f else {
        return 0;
    };
    table.rank_at(d)
}

// There is a cause, and all that it needs has rank at most k. What is not needed has rank 0.
fn is_lower(table: &Table<'_>, k: u16, w: Option<Cause>) -> bool
    ensures { result ≡ has_all (lower (ranks_in table.now) (suc k)) w }
{
    let Some(c) = w else {
        return false;
    };
    rank_of(table, c.before) <= k && rank_of(table, c.first) <= k && rank_of(table, c.second) <= k
}

// The first of two causes whose needed facts all have rank at most k.
fn first_lower(
    table: &Table<'_>,
    k: u16,
    first: Option<Cause>,
    second: Option<Cause>,
) -> Option<Cause>
    ensures { result ≡ first_has (lower (ranks_in table.now) (suc k)) first second }
{
    if is_lower(table, k, first) {
        return first;
    }
    if is_lower(table, k, second) {
        return second;
    }
    None
}

// The state that the step starts from, where x is the one free state: for a triple its own.
fn source(f: Fact, x: usize) -> usize
    ensures { result ≡ source (fact_of f) x }
{
    match f {
        Fact::Head(_, _) => x,
        Fact::Triple(q, _, _) => q,
    }
}

// The step tried for what is asked.
pub(crate) fn tried(m: &Lent, table: &Table<'_>, ask: Ask, s: Step) -> Option<Cause>
    ensures { result ≡ found_as (tried_at (product_in m.now) (lower (ranks_in table.now) (suc ask.k)) (fact_of ask.f) s.rule s.by s.free) }
{
    let f = ask.f;
    let end = lent::next_state(m, s.rule, s.by, source(f, s.free))?;
    let rule = lent::rule_at(m, s.rule);
    let made = Made { step: s, end, rule };
    let first = ways::first(made, f);
    let second = ways::second(made, f);
    first_lower(table, ask.k, first, second)
}
