// The steps of each class of rules, as matrices: from which state to which. A rule's class is what its steps do to the property state; with
// one location that is its symbol.
#![tactic(auto)]

ghost use Rattle.std.specs.Prelude.{◌&&◌, ◌||◌, ◌≡◌, ℕ, ◌+◌, ◌*◌, ◌%◌, ◌^◌, ◌<◌, ◌≤◌, min, get_or};
ghost use Rattle.bits.specs.Bit.{bit};
ghost use Rattle.bits.specs.Matrix.{some};
ghost use Rattle.lent.specs.Lending.{model_in};
ghost use Rattle.model.specs.Model.{shown};
ghost use Rattle.steps.specs.Events.{event_steps, with_move, marks, marked};
ghost use Rattle.steps.specs.Rows.{RowAt, kind_of};
ghost use Rattle.steps.specs.Steps.{class_of, symbol_of, class_steps, states_after};

use bits::Ones;
use lent::Lent;

// What a rule does to the stack: its symbol is taken off, and none, one or two are pushed.
#[derive(Clone, Copy, PartialEq, Eq, Debug)]
pub enum Kind {
    Exit,
    Direct,
    Call,
}

impl From<u8> for Kind {
    ghost from_gives = { λ n kind. kind ≡ kind_of n };

    fn from(n: u8) -> Self {
        match n {
            0 => Kind::Exit,
            1 => Kind::Direct,
            _ => Kind::Call,
        }
    }
}

// A rule by its numbers: its kind, and the byte that says it (any from 2 on is a call); its class, the symbol that it puts on top, and the one under
// that. Those that a rule does not use may be anything.
#[derive(Clone, Copy)]
pub struct Row {
    pub kind: Kind,
    pub byte: u8,
    pub class: usize,
    pub over: usize,
    pub under: usize,
}

// A byte as a symbol: below 32, whatever stands in a number that is not in use.
fn low(x: u8) -> usize
    ensures value { result ≡ x % 32 }
    ensures upper_bound { result < 32 }
{
    usize::from(x % 32)
}

// Enters a move from q by e to x into the matrix of its event; one whose numbers have no place there is let be.
fn put_move(on: &mut [u64; 16], q: u64, e: usize, x: u64)
    ensures { on.new ≡ with_move on.old q e x }
{
    if 8 <= q || 8 <= x || 16 <= e {
        return;
    }
    on[e] = on[e] | (1u64 << (q * 8 + x));
}

// For each event the matrix of its moves.
fn by_event(m: &Lent, moves: usize) -> [u64; 16]
    ensures { result ≡ event_steps (model_in m.now) moves }
{
    let mut on = [0u64; 16];
    for v in 0..moves.min(128) {
        let by = lent::move_at(m, v);
        put_move(&mut on, by.source as u64, by.event, by.target as u64);
    }
    on
}

// Byte k of a word, the others 0.
fn placed(b: u8, k: usize) -> u64
    requires { k < 8 }
    ensures value { result ≡ (b * 2 ^ (k * 8)) % 2 ^ 64 }
    ensures b_bound { b < 256 }
{
    (b as u64) << ((k * 8) as u64)
}

// The eight truths from number `at` on, a byte each: as they lie in memory, so that the compiler reads them at once.
fn eight(m: &Lent, at: usize) -> u64
    requires { at + 8 ≤ 512 }
    ensures { result ≡ marks (model_in m.now).shows at 8 }
{
    let mut w: u64 = 0;
    for k in 0..8 {
        w = w | placed(m[1408 + at + k], k);
    }
    w & 0x0101010101010101
}

// m with the matrices of the events that are marked in w, whose first byte is that of event `from`.
fn join(on: &[u64; 16], from: usize, w: u64, m: u64) -> u64
    requires { from + 8 ≤ 16 }
    ensures { (i : ℕ) → bit result i ≡ bit m i || marked on.now from w i }
{
    let mut r = m;
    for i in Ones(w) {
        r = r | on[from + i / 8];
    }
    r
}

// The matrix of symbol g: those of the events that it shows, joined; every symbol shows event 0.
fn symbol_steps<'a>(on: &'a [u64; 16], m: &'a Lent, g: usize) -> u64
    requires { g < 32 }
    ensures { (i : ℕ) → bit result i ≡ some 16 (λ e. shown (model_in m.now) g e && bit (get_or on.now e 0) i) }
{
    let at = g * 16;
    let half = join(on, 0, eight(m, at), on[0]);
    join(on, 8, eight(m, at + 8), half)
}

// For each class of rules the matrix of its steps.
pub fn class_steps(m: &Lent) -> [u64; 256]
    ensures { result ≡ class_steps (model_in m.now) }
{
    let shape = lent::shape(m);
    let on = by_event(m, shape.moves);
    let mut tg = [0u64; 256];
    for g in 0..usize::from(shape.symbols).min(32) {
        tg[g] = symbol_steps(&on, m, g);
    }
    tg
}

// The class of rule r; 0 for a number from 256 on, which is no rule.
pub fn class_of(m: &Lent, r: usize) -> usize
    ensures value { result ≡ class_of (model_in m.now) r }
    ensures upper_bound { result < 256 }
{
    if 256 <= r {
        return 0;
    }
    usize::from(m[r * 4 + 1])
}

// Rule r by its numbers; an exit with zeros for a number from 256 on, which is no rule.
pub fn row_at(m: &Lent, r: usize) -> Row
    ensures { RowAt m.now r result }
{
    if 256 <= r {
        return Row {
            kind: Kind::Exit,
            byte: 0,
            class: 0,
            over: 0,
            under: 0,
        };
    }
    let at = 4 * r;
    Row {
        kind: Kind::from(m[at]),
        byte: m[at],
        class: usize::from(m[at + 1]),
        over: low(m[at + 2]),
        under: low(m[at + 3]),
    }
}

// The symbol of a class, whatever the number.
pub fn symbol_of(class: usize) -> usize
    ensures value { result ≡ symbol_of class }
    ensures upper_bound { result < 32 }
{
    class % 32
}

// The states to which rule r can step from those in `from`.
pub fn states_after(m: &Lent, tg: &[u64; 256], r: usize, from: u64) -> u64
    ensures { result ≡ states_after (model_in m.now) tg.now r from }
{
    let c = class_of(m, r);
    bits::through(from, tg[c])
}
