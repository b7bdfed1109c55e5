// The first rule, and then the first move, that are not closed: a consequence of one of their steps is not present.
ghost use Rattle.std.specs.Prelude.{◌≡◌};
ghost use Rattle.lent.specs.Lending.{model_in, product_in};
ghost use Rattle.table.specs.Looked.{held_in};
ghost use Rattle.recheck.specs.Recheck.{Sized};
ghost use Rattle.recheck.specs.Tests.{steps_kept, closed_by, FirstOpen, opening_of, found_as};

use crate::Opening;
use crate::facts::{all_heads, all_triples};
use lent::Lent;
use table::Table;

// The consequences of rule r and move v, from every state, are present.
fn steps_kept(m: &Lent, table: &Table<'_>, r: usize, v: usize) -> bool
    ensures { result ≡ steps_kept (product_in m.now) table.now.size.states (held_in table.now) r v }
{
    let rule = lent::rule_at(m, r);
    // A `for`: as a chain the proof did not find what the closure's call of `next_state` ensures.
    for q in 0..table.size.states as usize {
        let next = lent::next_state(m, r, v, q);
        if !kept::next_kept(table, q, next, rule) {
            return false;
        }
    }
    true
}

// The first move that is not closed with rule r.
fn open_move(m: &Lent, table: &Table<'_>, moves: usize, r: usize) -> Option<usize>
    ensures { FirstOpen (steps_kept (product_in m.now) table.now.size.states (held_in table.now) r) moves result }
{
    (0..moves).find(|v| !steps_kept(m, table, r, *v))
}

// Rule r is closed, by matrices.
fn closed_by(m: &Lent, tg: &[u64; 256], ts: &[u64; 32], hs: &[u64; 32], r: usize) -> bool
    ensures { result ≡ closed_by (model_in m.now) tg.now ts.now hs.now r }
{
    let c = steps::class_of(m, r);
    closed::rule_closed(ts, hs, tg[c], lent::rule_at(m, r))
}

// The first rule that is not closed, by matrices.
fn open_rule<'a>(
    m: &'a Lent,
    tg: &'a [u64; 256],
    ts: &'a [u64; 32],
    hs: &'a [u64; 32],
    rules: usize,
) -> Option<usize>
    ensures { FirstOpen (closed_by (model_in m.now) tg.now ts.now hs.now) rules result }
{
    (0..rules).find(|r| !closed_by(m, tg, ts, hs, *r))
}

// The first rule, and its first move, that are not closed. Rule by rule matrices decide; only for a rule that is not closed are its moves tried.
pub(crate) fn open_step(m: &Lent, table: &Table<'_>) -> Option<Opening>
    requires { Sized (model_in m.now) table.now.size table.now.heads.now table.now.triples.now }
    ensures { result ≡ found_as (opening_of (model_in m.now) (held_in table.now)) }
{
    let s = lent::shape(m);
    let tg = steps::class_steps(m);
    let ts = all_triples(table);
    let hs = all_heads(table);
    let rule = open_rule(m, &tg, &ts, &hs, s.rules)?;
    let by = open_move(m, table, s.moves, rule)?;
    Some(Opening { rule, by })
}
