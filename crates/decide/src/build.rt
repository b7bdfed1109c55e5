// What the rounds are run on, from a model: which rules need which symbol, the rules of the first round, and the final states.
ghost use Rattle.std.specs.Prelude.{cond, ◌&&◌, ◌≡◌, ℕ, ◌<◌, ◌≤◌, ◌^◌, ltb, length};
ghost use Rattle.bits.specs.Bit.{bit};
ghost use Rattle.lent.specs.Lending.{product_in};
ghost use Rattle.decide.specs.Build.{RulePut, RulesSorted, First, GoalOf};
ghost use Rattle.decide.specs.Gather.{Empty};

use crate::sets::{NumberSet, collect, put};
use crate::{Goal, Next};
use lent::Lent;
use model::Shape;
use steps::{Kind, row_at};

// Puts rule r into the sets of the symbols whose triples or heads it needs. An exit needs none, and is put among the exits. The
// kinds are asked one after another, since a direct rule and a call share two puts.
fn sort_rule(rules: &Lent, r: usize, us: &mut [u64; 384], exits: &mut NumberSet)
    requires r_bound { r < 256 }
    requires us_len { length us.old ≡ 384 }
    ensures { RulePut rules.now r us.old exits.old.words us.new exits.new.words }
{
    let row = row_at(rules, r);
    if row.kind == Kind::Exit {
        exits.insert(r);
        return;
    }
    put(us, 64 + steps::symbol_of(row.class), r);
    put(us, row.over, r);
    if row.kind == Kind::Direct {
        return;
    }
    put(us, row.under, r);
    put(us, 32 + row.over, r);
}

// The sets of rules by what they need, and the exits, which give triples in the first round. The sets are filled where they lie: they are large.
fn sort_rules(rules: &Lent, count: usize, us: &mut [u64; 384], exits: &mut NumberSet)
    requires count_bound { count ≤ 256 }
    requires empty { Empty 384 us.old }
    requires empty_2 { Empty 4 exits.old.words }
    ensures { RulesSorted rules.now count us.new exits.new.words }
{
    for r in 0..count {
        sort_rule(rules, r, us, exits);
    }
}

// The rules of the first round, of the rules sorted into `us`: the exits, and those that need the head of the start symbol g.
pub(crate) fn first_rules(rules: &Lent, count: usize, g: usize, us: &mut [u64; 384]) -> Next
    requires count_bound { count ≤ 256 }
    requires g_bound { g < 32 }
    requires empty { Empty 384 us.old }
    ensures { First rules.now count g us.new result }
{
    let mut exits = NumberSet::empty();
    sort_rules(rules, count, us, &mut exits);
    let changed = 1u64 << (g as u64);
    let for_heads = collect(us, 64, changed, NumberSet::empty());
    Next {
        more: true,
        changed: changed,
        wt: exits,
        wh: for_heads,
    }
}

// State q as a set, if it is final.
fn if_final(m: &Lent, q: usize) -> u64
    requires { q < 8 }
    ensures { result ≡ cond ((product_in m.now).final q) (2 ^ q) 0 }
{
    if lent::is_final(m, q) {
        return 1u64 << (q as u64);
    }
    0
}

// The final states.
fn final_states(m: &Lent) -> u64
    ensures { (x : ℕ) → bit result x ≡ ltb x 8 && (product_in m.now).final x }
{
    let mut r: u64 = 0;
    for q in 0..8 {
        r = r | if_final(m, q);
    }
    r
}

// What is looked for in a model: its final states, from its start.
pub(crate) fn goal_of(shape: Shape, m: &Lent) -> Goal
    ensures { GoalOf shape (product_in m.now).final result }
{
    Goal {
        finals: final_states(m),
        state: shape.startstate as usize,
        symbol: shape.startsymbol as usize,
    }
}
