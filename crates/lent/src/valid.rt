// Which lent models are valid: every count within its size, and every number in use within its range.
ghost use Rattle.std.specs.Prelude.{◌&&◌, ◌≡◌, ◌≤◌, leb};
ghost use Rattle.product.specs.Lists.{all, up_to};
ghost use Rattle.model.specs.Model.{rule_by};
ghost use Rattle.model.specs.Valid.{within, sizes_in, symbols_in, rule_row_in, move_row_in, valid};
ghost use Rattle.lent.specs.Lending.{part, model_in};

use crate::{Lent, Row, move_at, row_at, shape};

fn within(low: usize, high: usize, n: usize) -> bool
    ensures { result ≡ within low high n }
{
    low <= n && n <= high
}

// The counts are within their sizes.
fn sizes_in(symbols: usize, states: usize, events: usize, rules: usize, moves: usize) -> bool
    ensures { result ≡ sizes_in symbols states events rules moves }
{
    within(1, 32, symbols)
        && within(1, 8, states)
        && within(1, 16, events)
        && rules <= 256
        && moves <= 128
}

// The row is a rule, with its symbols in range: a direct rule and a call push one, and a call a second.
fn row_in(row: Row, symbols: u8) -> bool
    ensures { result ≡ leb row.kind 2 && symbols_in symbols (rule_by row.kind row.symbol row.over row.under) }
{
    row.symbol < symbols
        && match row.kind {
            0 => true,
            1 => row.over < symbols,
            2 => row.over < symbols && row.under < symbols,
            _ => false,
        }
}

fn rules_in(m: &Lent, symbols: u8, count: usize) -> bool
    ensures { result ≡ all (rule_row_in symbols (part 0 1024 m.now)) (up_to count) }
{
    (0..count).all(|r| row_in(row_at(m, r), symbols))
}

// Row v is a move, with its states and its event in range.
fn move_in(m: &Lent, states: usize, events: usize, v: usize) -> bool
    ensures { result ≡ move_row_in states events (part 1024 384 m.now) v }
{
    let by = move_at(m, v);
    by.source < states && by.event < events && by.target < states
}

fn moves_in(m: &Lent, states: usize, events: usize, count: usize) -> bool
    ensures { result ≡ all (move_row_in states events (part 1024 384 m.now)) (up_to count) }
{
    (0..count).all(|v| move_in(m, states, events, v))
}

// The model is valid; if not, it is refusal 6. The counts come first, so that no more rows are looked at than there are.
pub fn is_valid(m: &Lent) -> bool
    ensures { result ≡ valid (model_in m.now) }
{
    let s = shape(m);
    let states = usize::from(s.states);
    let events = usize::from(s.events);
    sizes_in(usize::from(s.symbols), states, events, s.rules, s.moves)
        && s.startstate < s.states
        && s.startsymbol < s.symbols
        && rules_in(m, s.symbols, s.rules)
        && moves_in(m, states, events, s.moves)
}
