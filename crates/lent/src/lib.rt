// A model as one lent array: those who have it ask by it, and only `steps` beside this crate reads its cells. specs/Lending.antt says which record it is.
#![tactic(auto)]

ghost use Rattle.std.specs.Prelude.{◌≡◌, ◌+◌, ◌*◌, ◌≤◌, ◌<◌, replicate};
ghost use Rattle.lent.specs.Lending.{part, shape_in, row_in, model_in, product_in, next_by, InByte};
ghost use Rattle.model.specs.Answers.{next_as, rule_as};
ghost use Rattle.model.specs.Model.{in_row, move, shown, there};

use model::{Move, Rule, Shape};

// A model's bytes: lent memory of a fixed size, whose every value is allowed.
pub type Lent = [u8; 1936];

// The numbers of a rule's row: its kind (0 exit, 1 direct, 2 call), its symbol, and the symbols that it puts on top and under that. The kind stays
// a byte: any byte may stand in a lent array, and whether it is a kind is tested by `is_valid`.
#[derive(Clone, Copy)]
pub struct Row {
    pub kind: u8,
    pub symbol: u8,
    pub over: u8,
    pub under: u8,
}

mod valid; // which models are valid

pub use valid::is_valid;

// Bytes for a model that is to be read.
pub fn blank() -> Lent
    ensures { result ≡ replicate 1936 0 }
{
    [0u8; 1936]
}

// What the model says beside its rules, its moves and its truths.
pub fn shape(m: &Lent) -> Shape
    ensures { result ≡ shape_in m.now }
{
    let low = usize::from(m[1933]);
    let high = usize::from(m[1934]);
    Shape {
        symbols: m[1928],
        states: m[1929],
        events: m[1930],
        startstate: m[1931],
        startsymbol: m[1932],
        rules: low + 256 * high,
        moves: usize::from(m[1935]),
    }
}

// The row of rule r; zeros where there is none.
pub(crate) fn row_at(m: &Lent, r: usize) -> Row
    ensures { result ≡ row_in m.now r }
{
    if 256 <= r {
        return Row {
            kind: 0,
            symbol: 0,
            over: 0,
            under: 0,
        };
    }
    let at = r * 4;
    Row {
        kind: m[at],
        symbol: m[at + 1],
        over: m[at + 2],
        under: m[at + 3],
    }
}

// Number i of the row of move v.
fn in_move(m: &Lent, v: usize, i: usize) -> usize
    requires { i < 3 }
    ensures value { result ≡ in_row 3 (part 1024 384 m.now) v i }
    ensures upper_bound { result ≤ 255 }
{
    if 128 <= v {
        return 0;
    }
    usize::from(m[1024 + v * 3 + i])
}

// Rule r.
pub fn rule_at(m: &Lent, r: usize) -> Rule
    ensures { result ≡ rule_as ((product_in m.now).rule r) }
{
    let row = row_at(m, r);
    let g = usize::from(row.symbol);
    let g1 = usize::from(row.over);
    match row.kind {
        0 => Rule::Exit(g),
        1 => Rule::Direct(g, g1),
        _ => Rule::Call(g, g1, usize::from(row.under)),
    }
}

// Move v.
pub fn move_at(m: &Lent, v: usize) -> Move
    ensures value { result ≡ move (model_in m.now) v }
    ensures target_bound { result.target ≤ 255 }
{
    Move {
        source: in_move(m, v, 0),
        event: in_move(m, v, 1),
        target: in_move(m, v, 2),
    }
}

// The state q is final.
pub fn is_final(m: &Lent, q: usize) -> bool
    ensures { result ≡ (product_in m.now).final q }
{
    q < 8 && m[1920 + q] % 2 == 1
}

// The symbol shows the event; every symbol shows event 0.
pub fn shows(m: &Lent, g: usize, e: usize) -> bool
    ensures { result ≡ shown (model_in m.now) g e }
{
    if e == 0 {
        return true;
    }
    if 32 <= g || 512 <= e {
        return false;
    }
    let at = g * 16 + e;
    at < 512 && m[1408 + at] % 2 == 1
}

// The model has rule r and move v.
fn has(m: &Lent, r: usize, v: usize) -> bool
    ensures { result ≡ there (model_in m.now) (record { by_rule = r; by_move = v }) }
{
    let s = shape(m);
    r < s.rules && v < s.moves
}

// The one meaning of a step: the state after rule r and move v from state q, or none, where they make no step. The move starts at q, and
// the rule's symbol, on top before the step, shows its event.
pub fn next_state(m: &Lent, r: usize, v: usize, q: usize) -> Option<usize>
    ensures value { result ≡ next_as (next_by (product_in m.now) r v q) }
    ensures in_byte { InByte result }
{
    if !has(m, r, v) {
        return None;
    }
    let by = move_at(m, v);
    if by.source != q {
        return None; // the move starts elsewhere
    }
    let g = rule_at(m, r).symbol();
    if !shows(m, g, by.event) {
        return None; // the symbol does not show the event
    }
    Some(by.target)
}
