// Whether a table keeps the consequences of a step: what the facts that are present give is present too. Any number but 65,535 means
// present; ranks are not looked at.
#![tactic(auto)]

ghost use Rattle.std.specs.Prelude.{◌≡◌};
ghost use Rattle.table.specs.Places.{fact_of};
ghost use Rattle.model.specs.Answers.{meant, landed};
ghost use Rattle.table.specs.Looked.{held_in};
ghost use Rattle.kept.specs.Kept.{passes, triples_pass, both_pass, return_passes, returns_pass, rule_kept, next_kept};

use model::Rule;
use table::{Fact, Table};

// A step as it is passed on: from the state q with g on top to the state q2 with g1 on top.
#[derive(Clone, Copy)]
struct Leg {
    q: usize,
    g: usize,
    q2: usize,
    g1: usize,
}

// The fact, if present, is passed on to the other.
fn passes(table: &Table<'_>, f: Fact, to: Fact) -> bool
    ensures { result ≡ passes (held_in table.now) (fact_of f) (fact_of to) }
{
    !table.has(f) || table.has(to)
}

// Every triple (q2, g1, e) that is present is passed back to (q, g).
fn triples_pass(table: &Table<'_>, leg: Leg) -> bool
    ensures { result ≡ triples_pass table.now.size.states (held_in table.now) leg.q leg.g leg.q2 leg.g1 }
{
    (0..table.size.states as usize).all(|e| {
        let f = Fact::Triple(leg.q2, leg.g1, e);
        let to = Fact::Triple(leg.q, leg.g, e);
        passes(table, f, to)
    })
}

// As a direct step from (q, g) to (q2, g1) asks: the head is passed on, and the triples back.
fn both_pass(table: &Table<'_>, leg: Leg) -> bool
    ensures { result ≡ both_pass table.now.size.states (held_in table.now) leg.q leg.g leg.q2 leg.g1 }
{
    let f = Fact::Head(leg.q, leg.g);
    let to = Fact::Head(leg.q2, leg.g1);
    passes(table, f, to) && triples_pass(table, leg)
}

// A call that can erase g1 on the way to the state e goes on at (e, g2), as a direct step to there would.
fn return_passes(table: &Table<'_>, leg: Leg, g2: usize, e: usize) -> bool
    ensures { result ≡ return_passes table.now.size.states (held_in table.now) leg.q leg.g leg.q2 leg.g1 g2 e }
{
    let on = Leg {
        q: leg.q,
        g: leg.g,
        q2: e,
        g1: g2,
    };
    let erased = Fact::Triple(leg.q2, leg.g1, e);
    !table.has(erased) || both_pass(table, on)
}

fn returns_pass(table: &Table<'_>, leg: Leg, g2: usize) -> bool
    ensures { result ≡ returns_pass table.now.size.states (held_in table.now) leg.q leg.g leg.q2 leg.g1 g2 }
{
    (0..table.size.states as usize).all(|e| return_passes(table, leg, g2, e))
}

// The consequences of a step from q to q2 by the rule are present.
fn rule_kept(table: &Table<'_>, q: usize, q2: usize, rule: Rule) -> bool
    ensures { result ≡ rule_kept table.now.size.states (held_in table.now) q q2 (meant rule) }
{
    match rule {
        Rule::Exit(g) => table.has(Fact::Triple(q, g, q2)),
        Rule::Direct(g, g1) => both_pass(table, Leg { q, g, q2, g1 }),
        Rule::Call(g, g1, g2) => {
            passes(table, Fact::Head(q, g), Fact::Head(q2, g1))
                && returns_pass(table, Leg { q, g, q2, g1 }, g2)
        }
    }
}

// The consequences of the step that the rule makes from the state q to the next, if there is one.
pub fn next_kept(table: &Table<'_>, q: usize, next: Option<usize>, rule: Rule) -> bool
    ensures { result ≡ next_kept table.now.size.states (held_in table.now) q (meant rule) (landed next) }
{
    match next {
        None => true,
        Some(q2) => rule_kept(table, q, q2, rule),
    }
}
