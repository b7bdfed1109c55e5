// The rounds until a verdict or the end of the budget: the tests after each, and the choice of the rules for the next.
ghost use Rattle.std.specs.Prelude.{◌≡◌, ℕ, ◌*◌, ◌%◌, ◌^◌, ◌<◌, T, set};
ghost use Rattle.bits.specs.Bit.{bit};
ghost use Rattle.decide.specs.Turn.{Chosen};
ghost use Rattle.decide.specs.Driven.{violations, Judged, Driving, Driven};

use crate::heads::round_heads;
use crate::sets::{NumberSet, collect};
use crate::triples::round_triples;
use crate::{DecideError, Given, Goal, Next, Verdict};
use bits::Ones;

// The rules for the next round: those that need a triple or a head of a symbol that changed, ce for triples and ch for heads.
fn choose(us: &[u64; 384], ce: u64, ch: u64) -> Next
    requires by_index { (g : ℕ) → T (bit ce g) → g < 32 }
    requires by_index_2 { (g : ℕ) → T (bit ch g) → g < 32 }
    ensures { Chosen us.now ce ch result }
{
    let for_triples = collect(us, 0, ce, NumberSet::empty());
    let by_triples = collect(us, 32, ce, NumberSet::empty());
    let for_heads = collect(us, 64, ch, by_triples);
    Next {
        more: ce | ch != 0,
        changed: ch,
        wt: for_triples,
        wh: for_heads,
    }
}

// The final states of violating facts: in which the start symbol is erased from the start state, or a symbol that changed has a head.
fn look(goal: Goal, changed: u64, hd: &[u64; 32], e: &[u64; 32]) -> u64
    requires state_bound { goal.state < 8 }
    requires symbol_bound { goal.symbol < 32 }
    requires by_index { (s : ℕ) → T (bit changed s) → s < 32 }
    ensures { (x : ℕ) → bit result x ≡ violations goal.finals changed hd.now e.now goal.state goal.symbol x }
{
    let g = goal.symbol;
    let fins = goal.finals;
    let q = goal.state;
    let mut r = (e[g] >> (8 * (q as u64))) & fins;
    for s in Ones(changed) {
        r = r | (hd[s] & fins);
    }
    r
}

// The answer, if the three tests after round n give one, in their order: a violating fact, nothing new, and the budget.
fn judge(
    goal: Goal,
    n: u16,
    budget: u32,
    t: Next,
    hd: &[u64; 32],
    e: &[u64; 32],
) -> Option<Result<Verdict, DecideError>>
    requires state_bound { goal.state < 8 }
    requires symbol_bound { goal.symbol < 32 }
    requires by_index { (s : ℕ) → T (bit t.changed s) → s < 32 }
    ensures { Judged goal n budget t hd.now e.now result }
{
    if look(goal, t.changed, hd, e) != 0 {
        return Some(Ok(Verdict::Violation(n)));
    }
    if !t.more {
        return Some(Ok(Verdict::Safe(n)));
    }
    if budget <= n as u32 {
        return Some(Err(DecideError::Spent(budget)));
    }
    None
}

// The start head among the heads that are held.
fn begin(goal: Goal, hd: &mut [u64; 32])
    requires state_bound { goal.state < 8 }
    requires symbol_bound { goal.symbol < 32 }
    ensures { hd.new ≡ set hd.old goal.symbol ((1 * 2 ^ goal.state) % 2 ^ 64) }
{
    let g = goal.symbol;
    hd[g] = 1u64 << (goal.state as u64);
}

// The rounds, from round 0 on. The tests look at what the last round changed, and only the rules that this concerns go on. The heads of a round come
// before its triples: both are made of what was held before it. The loop is left by what a round is judged, and not by a count.
pub(crate) fn run(
    goal: Goal,
    first: Next,
    given: Given,
    heads: &mut [u16],
    triples: &mut [u16],
    budget: u32,
) -> Result<Verdict, DecideError>
    requires { Driving given.size goal first given.rules.now given.tg.now given.us.now heads.old triples.old }
    ensures { Driven given.entry.size goal first given.entry.rules.now given.entry.tg.now given.entry.us.now heads.old triples.old budget result heads.new triples.new }
{
    let mut by = [0u64; 256]; // what the classes have gathered
    let mut nh = [0u64; 32]; // the rows of a round
    let mut e = [0u64; 32]; // the triples that are held
    let mut hd = [0u64; 32]; // and the heads
    begin(goal, &mut hd);
    let mut n: u16 = 0;
    let mut t = first;
    loop {
        if let Some(d) = judge(goal, n, budget, t, &hd, &e) {
            return d;
        }
        n += 1;
        let wh = t.wh;
        let wt = t.wt;
        let ch = round_heads(n, wh, given, &e, &mut nh, &mut hd, heads);
        let ce = round_triples(n, wt, given, &mut by, &mut e, triples);
        t = choose(given.us, ce, ch);
    }
}
