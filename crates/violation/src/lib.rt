// Puts a violation: its rounds, and a line for each step of its trace.
#![tactic(auto)]

ghost use Rattle.std.specs.Prelude.{◌≡◌, ℕ, ◌≤◌, length};
ghost use Rattle.lent.specs.Lending.{model_in, product_in};
ghost use Rattle.model.specs.Answers.{meant};
ghost use Rattle.print.specs.Bytes.{named_bytes};
ghost use Rattle.text.specs.Put.{Put};
ghost use Rattle.violation.specs.Words.{step_word};
ghost use Rattle.violation.specs.Bytes.{room, shown, kind_of, stepped, step_line, step_lines, first_line, violation_bytes};

use lent::Lent;
use model::Rule;

// The steps of a trace that are printed at most.
pub const ROOM: usize = 4096;

// The state after a stored step from q; q itself where it is no step.
fn state_after(m: &Lent, step: u16, q: usize) -> usize
    requires { q ≤ 255 }
    ensures value { result ≡ stepped (product_in m.now) step q }
    ensures upper_bound { result ≤ 255 }
{
    let next = lent::next_state(m, (step / 128) as usize, (step % 128) as usize, q);
    next.unwrap_or(q)
}

// Puts the line of a step with these numbers, by this rule.
fn put_by(out: &mut [u8], at: usize, row: &[u16], rule: Rule) -> usize
    ensures { Put out.old out.new at result (named_bytes step_word row.now (kind_of (meant rule))) }
{
    match rule {
        Rule::Exit(_) => print::put_named(out, at, b"step", row, b"exit"),
        Rule::Direct(_, _) => print::put_named(out, at, b"step", row, b"direct"),
        Rule::Call(_, _, _) => print::put_named(out, at, b"step", row, b"call"),
    }
}

// Puts the line of a stored step: its number, rule, move, the state after it, and its kind.
fn put_step(out: &mut [u8], at: usize, m: &Lent, number: u16, step: u16, state: u16) -> usize
    ensures { Put out.old out.new at result (step_line (product_in m.now) number step state) }
{
    let r = step / 128;
    let v = step % 128;
    let row = [number, r, v, state];
    let rule = lent::rule_at(m, r as usize);
    put_by(out, at, &row, rule)
}

// Puts the lines of the steps, numbered from 1, with the states of their run.
fn put_steps(out: &mut [u8], at: usize, m: &Lent, steps: &[u16]) -> usize
    requires { length steps.now ≤ room }
    ensures { Put out.old out.new at result (step_lines (product_in m.now) steps.now (length steps.now)) }
{
    let shape = lent::shape(m);
    let mut q = shape.startstate as usize;
    let mut next = print::place(out.len(), at);
    for (i, step) in steps.iter().enumerate() {
        q = state_after(m, *step, q);
        next = put_step(out, next, m, (i + 1) as u16, *step, q as u16);
    }
    next
}

// Puts the first line: the rounds, and the number of steps, or `cut` where the trace is not whole.
fn put_first(out: &mut [u8], whole: bool, rounds: u16, count: u16) -> usize
    ensures { Put out.old out.new 0 result (first_line whole rounds count) }
{
    if whole {
        let row = [rounds, count];
        return print::put_line(out, 0, b"violation", &row);
    }
    let row = [rounds];
    print::put_named(out, 0, b"violation", &row, b"cut")
}

// Puts a violation of whose trace the first `count` steps are there: all of them, or as many as were not cut. The count and `whole` stay beside the
// steps: the clause allows any of them, and a slice cut to the count would not.
pub fn put_violation(
    out: &mut [u8],
    m: &Lent,
    whole: bool,
    rounds: u16,
    steps: &[u16],
    count: usize,
) -> usize
    ensures { Put out.old out.new 0 result (violation_bytes (model_in m.now) whole rounds steps.now (shown (length steps.now) count)) }
{
    let n = count.min(steps.len()).min(ROOM);
    let next = put_first(out, whole, rounds, n as u16);
    put_steps(out, next, m, &steps[..n])
}
