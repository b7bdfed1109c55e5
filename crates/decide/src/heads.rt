// A round of the heads: where the steps of a rule end, there is a head of what it puts on top, and of what lies under that once it is erased.
ghost use Rattle.std.specs.Prelude.{◌≡◌, ◌&&◌, ℕ, ◌<◌, eqb, length};
ghost use Rattle.bits.specs.Bit.{bit};
ghost use Rattle.steps.specs.Rows.{class_at};
ghost use Rattle.decide.specs.Stamp.{of_heads, alone};
ghost use Rattle.decide.specs.Gather.{Empty};
ghost use Rattle.decide.specs.Take.{Took, Room, Fits};
ghost use Rattle.decide.specs.Show.{landing, shown, shown_all, Shows, RowsCover, ShowsAll, RowsFit, SettlesRows, HeadsReady, HeadsDone};

use crate::Given;
use crate::sets::{NumberSet, gain};
use crate::stamps::stamp_heads;
use bits::Ones;
use steps::{Kind, row_at};
use table::Size;

// The states in which the steps of rule i end, from the heads of its symbol.
fn land(i: usize, given: Given, hd: &[u64; 32]) -> u64
    requires { i < 256 }
    ensures { result ≡ landing given.entry.tg.now hd.now (class_at given.entry.rules.now i) }
{
    let c = steps::class_of(given.rules, i);
    let g = steps::symbol_of(c);
    steps::states_after(given.rules, given.tg, i, hd[g])
}

// The row of symbol g takes in v. Answers the set of g.
fn add_row(g: usize, v: u64, nh: &mut [u64; 32]) -> u64
    requires g_bound { g < 32 }
    requires nh_len { length nh.old ≡ 32 }
    ensures { Shows (λ h x. eqb g h && bit v x) nh.old result nh.new }
{
    nh[g] = nh[g] | v;
    1u64 << (g as u64)
}

// Rule i adds the heads that it gives. Answers the set of the symbols whose row it wrote. An exit is told first, in place of one match behind the steps: with
// that a decision took up to 4 % longer.
fn show(i: usize, given: Given, e: &[u64; 32], hd: &[u64; 32], nh: &mut [u64; 32]) -> u64
    requires i_bound { i < 256 }
    requires nh_len { length nh.old ≡ 32 }
    ensures { Shows (shown given.entry.rules.now given.entry.tg.now e.now hd.now i) nh.old result nh.new }
{
    let row = row_at(given.rules, i);
    if row.kind == Kind::Exit {
        return 0;
    }
    let v = land(i, given, hd);
    if v == 0 {
        return 0; // no head is passed on
    }
    let t = add_row(row.over, v, nh);
    if row.kind == Kind::Direct {
        return t;
    }
    let back = e[row.over];
    if back == 0 {
        return t; // nothing is returned to
    }
    t | add_row(row.under, bits::through(v, back), nh)
}

// The rules of a set.
fn show_all(set: NumberSet, given: Given, e: &[u64; 32], hd: &[u64; 32], nh: &mut [u64; 32]) -> u64
    requires { Empty 32 nh.old }
    ensures { ShowsAll (shown_all given.entry.rules.now given.entry.tg.now e.now hd.now set.words) result nh.new }
{
    let mut touched: u64 = 0;
    for i in set {
        touched = touched | show(i, given, e, hd, nh);
    }
    touched
}

// The row of symbol g takes in m, and its new heads get the rank k. Answers the set of g if there is one, and else the empty set.
fn take_heads(size: Size, g: usize, m: u64, k: u16, hd: &mut [u64; 32], heads: &mut [u16]) -> u64
    requires room { Room of_heads size hd.old heads.old }
    requires fits { Fits of_heads size g m }
    ensures { Took of_heads size k (alone g m) hd.old heads.old result hd.new heads.new }
{
    let new = gain(hd, g, m);
    if new == 0 {
        return 0;
    }
    stamp_heads(heads, size, g, new, k);
    1u64 << (g as u64)
}

// The symbols of a set take in their rows, which are then empty again. Answers the set of the symbols that changed.
fn settle_heads(
    size: Size,
    touched: u64,
    k: u16,
    nh: &mut [u64; 32],
    hd: &mut [u64; 32],
    heads: &mut [u16],
) -> u64
    requires rows_cover { RowsCover touched nh.old }
    requires room { Room of_heads size hd.old heads.old }
    requires rows_fit { RowsFit size nh.old }
    ensures { SettlesRows size k nh.old hd.old heads.old result nh.new hd.new heads.new }
{
    let mut changed: u64 = 0;
    for g in Ones(touched) {
        changed = changed | take_heads(size, g, nh[g], k, hd, heads);
        nh[g] = 0;
    }
    changed
}

// The heads of round k, by the rules of a set. The rows nh are empty before and after. Answers the set of the symbols that changed.
pub(crate) fn round_heads(
    k: u16,
    set: NumberSet,
    given: Given,
    e: &[u64; 32],
    nh: &mut [u64; 32],
    hd: &mut [u64; 32],
    heads: &mut [u16],
) -> u64
    requires heads_ready { HeadsReady given.size set.words given.rules.now given.tg.now e.now hd.old heads.old }
    requires empty { Empty 32 nh.old }
    ensures { HeadsDone given.entry.size k set.words given.entry.rules.now given.entry.tg.now e.now hd.old heads.old result nh.new hd.new heads.new }
{
    let touched = show_all(set, given, e, hd, nh);
    settle_heads(given.size, touched, k, nh, hd, heads)
}
