// The violating fact that is taken of those that the two lent arrays hold: heads before triples, then lowest state, symbol and end state.
#![tactic(auto)]

ghost use Rattle.std.specs.Prelude.{◌≡◌};
ghost use Rattle.lent.specs.Lending.{product_in};
ghost use Rattle.table.specs.Places.{fact_of};
ghost use Rattle.culprit.specs.Culprit.{goal_as, end_of, guilty, some_head, some_triple, culprit_in, clean_in};

use lent::Lent;
use table::{Fact, Table};

// The state that a fact's run ends in.
fn end_of(f: Fact) -> usize
    ensures { result ≡ end_of (fact_of f) }
{
    match f {
        Fact::Head(q, _) => q,
        Fact::Triple(_, _, e) => e,
    }
}

// The fact is held, and ends in a final state.
fn guilty(m: &Lent, table: &Table<'_>, f: Fact) -> bool
    ensures { result ≡ guilty (product_in m.now).final table.now.size.symbols table.now.size.states table.now.heads.now table.now.triples.now (fact_of f) }
{
    lent::is_final(m, end_of(f)) && table.has(f)
}

// The first head that is held in a final state.
fn some_head(m: &Lent, table: &Table<'_>) -> Option<Fact>
    ensures { result ≡ goal_as (some_head (product_in m.now).final table.now.size.symbols table.now.size.states table.now.heads.now table.now.triples.now) }
{
    let symbols = table.size.symbols as usize;
    for q in 0..table.size.states as usize {
        for g in 0..symbols {
            let f = Fact::Head(q, g);
            if guilty(m, table, f) {
                return Some(f);
            }
        }
    }
    None
}

// The first triple that is held from the state s and the symbol a into a final state.
fn some_triple(m: &Lent, table: &Table<'_>, s: usize, a: usize) -> Option<Fact>
    ensures { result ≡ goal_as (some_triple (product_in m.now).final table.now.size.symbols table.now.size.states table.now.heads.now table.now.triples.now s a) }
{
    for e in 0..table.size.states as usize {
        let f = Fact::Triple(s, a, e);
        if guilty(m, table, f) {
            return Some(f);
        }
    }
    None
}

// The violating fact that is held; s and a are the start state and the start symbol.
pub fn culprit(m: &Lent, table: &Table<'_>, s: usize, a: usize) -> Option<Fact>
    ensures { result ≡ goal_as (culprit_in (product_in m.now).final table.now.size.symbols table.now.size.states table.now.heads.now table.now.triples.now s a) }
{
    // An `if`: with `or_else` the proof was not told what the closure's call of `some_triple` ensures.
    let head = some_head(m, table);
    if head.is_some() {
        return head;
    }
    some_triple(m, table, s, a)
}

// No violating fact is held.
pub fn is_clean(m: &Lent, table: &Table<'_>, s: usize, a: usize) -> bool
    ensures { result ≡ clean_in (product_in m.now).final table.now.size.symbols table.now.size.states table.now.heads.now table.now.triples.now s a }
{
    culprit(m, table, s, a).is_none()
}
