// The model as far as its text is read, and what a line does to it. specs/Lines.antt says what each line does, and specs/Written.antt where it is written.
#![tactic(auto)]

ghost use Rattle.std.specs.Prelude.{◌≡◌, ℕ, ◌+◌, ◌*◌, ◌<◌, ◌≤◌};
ghost use Rattle.numbers.specs.Number.{nth};
ghost use Rattle.numbers.specs.declared.Numbers.{Numbers};
ghost use Rattle.limits.specs.Limits.{RuleFits, Fits};
ghost use Rattle.draft.specs.Draft.{bare};
ghost use Rattle.draft.specs.Lines.{three_at, four_at, outline_of, size_line, start_line, rule_line, move_line, after};
ghost use Rattle.draft.specs.Written.{truth_at, kind_of, written, Notes};

use lent::Lent;
use limits::Counts;
use line::Fault;
use modelline::{Line, Word};
use numbers::Numbers;

// What is read so far beside the lent rules, moves and truths of the model: its counts and its start.
#[derive(Clone, Copy)]
pub struct Outline {
    pub counts: Counts,
    pub startstate: u8,
    pub startsymbol: u8,
}

// The kind of a rule, as its row has it.
#[derive(Clone, Copy)]
enum Kind {
    Exit = 0,
    Direct = 1,
    Call = 2,
}

fn with_size(mut o: Outline, n: Numbers) -> Outline
    requires { (nth n 0 ≤ 32) × (nth n 1 ≤ 8) × (nth n 2 ≤ 16) }
    ensures { result ≡ outline_of (size_line (bare o) n) }
{
    let at = n.at;
    o.counts.symbols = at[0] as u8;
    o.counts.states = at[1] as u8;
    o.counts.events = at[2] as u8;
    o
}

fn with_start(mut o: Outline, n: Numbers) -> Outline
    requires { (nth n 0 < o.counts.states) × (nth n 1 < o.counts.symbols) }
    ensures { result ≡ outline_of (start_line (bare o) n) }
{
    let at = n.at;
    o.counts.started = 1;
    o.startstate = at[0] as u8;
    o.startsymbol = at[1] as u8;
    o
}

fn with_rule(mut o: Outline) -> Outline
    requires { o.counts.rules < 256 }
    ensures { (kind : ℕ) (n : Numbers) → result ≡ outline_of (rule_line kind (bare o) n) }
{
    o.counts.rules += 1;
    o
}

fn with_move(mut o: Outline) -> Outline
    requires { o.counts.moves < 128 }
    ensures { (n : Numbers) → result ≡ outline_of (move_line (bare o) n) }
{
    o.counts.moves += 1;
    o
}

// Marks truth i of the `count` that stand from a place on. An outline that no reading makes may have states or symbols past them: there nothing is marked.
fn mark(m: &mut Lent, from: usize, count: usize, i: usize)
    requires { from + count ≤ 1936 }
    ensures { m.new ≡ truth_at from count i m.old }
{
    if i < count {
        m[from + i] = 1;
    }
}

// Writes the row of the next rule.
fn put_rule(m: &mut Lent, counts: Counts, kind: Kind, n: Numbers)
    requires { RuleFits counts n }
    ensures { m.new ≡ four_at m.old (counts.rules * 4) (kind_of kind) (nth n 0) (nth n 1) (nth n 2) }
{
    let at = n.at;
    let i = counts.rules * 4;
    m[i] = kind as u8;
    m[i + 1] = at[0] as u8;
    m[i + 2] = at[1] as u8;
    m[i + 3] = at[2] as u8;
}

// And of the next move.
fn put_move(m: &mut Lent, counts: Counts, n: Numbers)
    requires { (counts.moves < 128) × (nth n 0 < counts.states) × (nth n 1 < counts.events) × (nth n 2 < counts.states) }
    ensures { m.new ≡ three_at m.old (1024 + counts.moves * 3) (nth n 0) (nth n 1) (nth n 2) }
{
    let at = n.at;
    let i = 1024 + counts.moves * 3;
    m[i] = at[0] as u8;
    m[i + 1] = at[1] as u8;
    m[i + 2] = at[2] as u8;
}

// Writes what a line says that is not refused, by its word.
fn put(m: &mut Lent, counts: Counts, l: Line)
    requires { Fits counts l.word l.numbers }
    ensures { m.new ≡ written counts l.word l.numbers m.old }
{
    let w = l.word;
    let n = l.numbers;
    let at = n.at;
    match w {
        Word::Unknown | Word::Size | Word::Start => {}
        Word::Final => mark(m, 1920, 8, at[0] as usize),
        Word::Event => mark(m, 1408, 512, (at[0] as usize) * 16 + (at[1] as usize)),
        Word::Exit => put_rule(m, counts, Kind::Exit, n),
        Word::Direct => put_rule(m, counts, Kind::Direct, n),
        Word::Call => put_rule(m, counts, Kind::Call, n),
        Word::Move => put_move(m, counts, n),
    }
}

// The outline after it.
fn outline_after(o: Outline, l: Line) -> Outline
    requires { Fits o.counts l.word l.numbers }
    ensures { result ≡ outline_of (after (bare o) l.word l.numbers) }
{
    let n = l.numbers;
    match l.word {
        Word::Unknown | Word::Final | Word::Event => o,
        Word::Size => with_size(o, n),
        Word::Start => with_start(o, n),
        Word::Exit | Word::Direct | Word::Call => with_rule(o),
        Word::Move => with_move(o),
    }
}

// What a line does: one that is refused changes nothing.
pub fn take_line(m: &mut Lent, o: Outline, l: Line) -> Result<Outline, Fault>
    ensures { Notes o l m.old result m.new }
{
    limits::check_line(o.counts, l)?;
    put(m, o.counts, l);
    Ok(outline_after(o, l))
}
