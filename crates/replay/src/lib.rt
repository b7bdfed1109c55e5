// The replay of a stored trace: a machine of a property state and a stack, whose symbols lie in a lent array, the top last.
#![tactic(auto)]

ghost use Rattle.std.specs.Prelude.{◌++◌, ◌≡◌, ◌≤◌, eqb, length, replicate, drop};
ghost use Rattle.product.specs.Product.{symbol, pushed, loaded};
ghost use Rattle.lent.specs.Lending.{model_in, product_in};
ghost use Rattle.model.specs.Answers.{meant, next_as};
ghost use Rattle.replay.specs.Replay.{Replays};
ghost use Rattle.replay.specs.Machine.{below, Room, Replaced, goes_at, Ready, Stepped, Runs, Ran};

use lent::{Lent, is_final, is_valid, next_state, rule_at, shape};
use model::Rule;

// Why a trace is not accepted: refusals 6, 7 and 12, with the number of the bad step.
#[derive(Clone, Copy, PartialEq, Eq, Debug)]
pub enum ReplayError {
    Invalid,
    Short,
    Bad(usize),
}

// The property state, and how many symbols are on the stack: these lie in lent memory, so that only their number goes by value.
#[derive(Clone, Copy)]
pub struct Machine {
    pub state: usize,
    pub depth: usize,
}

// One step of the machine: into a state that is not final, none (with the step's number), or into a final state. The description fixes these three.
#[derive(Clone, Copy)]
pub enum Outcome {
    Moved(Machine),
    Blocked(usize),
    Arrived(Machine),
}

// The rule replaces the symbol g.
fn replaces(rule: Rule, g: usize) -> bool
    ensures { result ≡ eqb (symbol (meant rule)) g }
{
    rule.symbol() == g
}

// Replaces the top as the rule says, and gives the new depth.
fn replace(stack: &mut [u8], depth: usize, rule: Rule) -> usize
    requires { Room stack.old depth (pushed (meant rule)) }
    ensures { Replaced depth (pushed (meant rule)) stack.old result stack.new }
{
    let top = depth - 1;
    match rule {
        Rule::Exit(_) => top,
        Rule::Direct(_, g1) => {
            stack[top] = g1 as u8;
            depth
        }
        Rule::Call(_, g1, g2) => {
            stack[top] = g2 as u8;
            stack[depth] = g1 as u8;
            depth + 1
        }
    }
}

// The state after the stored step n from state q with g on top, or none: one that names no rule or move is no step.
fn goes(m: &Lent, n: u16, q: usize, g: usize) -> Option<usize>
    ensures { result ≡ next_as (goes_at (product_in m.now) (loaded n) q g) }
{
    let r = (n / 128) as usize;
    let v = (n % 128) as usize;
    if !replaces(rule_at(m, r), g) {
        return None;
    }
    next_state(m, r, v, q)
}

// One step of the machine, by the stored step n, which is the trace's step `number`.
fn step(m: &Lent, stack: &mut [u8], at: Machine, n: u16, number: usize) -> Outcome
    requires { Ready (product_in m.now) stack.old at.depth }
    ensures { Stepped (product_in m.now) number at.depth (loaded n) (at.state, below stack.old at.depth)
        stack.old result stack.new }
{
    let depth = at.depth;
    if depth == 0 {
        return Outcome::Blocked(number);
    }
    let top = stack[depth - 1] as usize;
    let next = goes(m, n, at.state, top);
    match next {
        None => Outcome::Blocked(number),
        Some(q) => {
            let rule = rule_at(m, (n / 128) as usize);
            let reached = Machine {
                state: q,
                depth: replace(stack, depth, rule),
            };
            if is_final(m, q) {
                return Outcome::Arrived(reached);
            }
            Outcome::Moved(reached)
        }
    }
}

// Sets the first cells to 0.
fn clear(stack: &mut [u8], count: usize)
    requires { count ≤ length stack.old }
    ensures { stack.new ≡ replicate count 0 ++ drop count stack.old }
{
    stack[..count].fill(0);
}

// Runs the steps from the start. The outcome of the last decides; before any step, the start does.
fn run(m: &Lent, steps: &[u16], stack: &mut [u8]) -> Result<(), ReplayError>
    requires { Runs (model_in m.now) steps.now stack.old }
    ensures { Ran (model_in m.now) steps.now stack.old result stack.new }
{
    let s = shape(m);
    let start = s.startstate as usize;
    stack[0] = s.startsymbol;
    let mut at = Machine {
        state: start,
        depth: 1,
    };
    let mut accepting = is_final(m, start);
    for (k, n) in steps.iter().enumerate() {
        let outcome = step(m, stack, at, *n, k + 1);
        match outcome {
            Outcome::Blocked(number) => {
                return Err(ReplayError::Bad(number));
            }
            Outcome::Moved(next) => {
                at = next;
                accepting = false;
            }
            Outcome::Arrived(next) => {
                at = next;
                accepting = true;
            }
        }
    }
    if accepting {
        return Ok(());
    }
    Err(ReplayError::Bad(steps.len() + 1))
}

// Replays a stored trace over a stack that the caller lends.
pub fn replay_steps(m: &Lent, steps: &[u16], stack: &mut [u8]) -> Result<(), ReplayError>
    ensures { Replays (model_in m.now) steps.now stack.old result stack.new }
{
    if !is_valid(m) {
        return Err(ReplayError::Invalid);
    }
    if stack.len() <= steps.len() {
        return Err(ReplayError::Short);
    }
    let answer = run(m, steps, stack);
    clear(stack, steps.len() + 1);
    answer
}
