// A round of the triples: what is run after the steps of a rule is gathered by class, and goes once through the steps of each class that has more.
// `settle` and `settle_all` have seven parameters: what is written is lent array by array, since each function writes others; size and
// k as a struct by value made a decision of many rounds 2 to 3 % longer. `gather`, `settle` and `settle_all` have their like in heads.rt: those write other
// arrays from sets of another kind, so that one function over both would need a closure over all that it writes.
ghost use Rattle.std.specs.Prelude.{◌≡◌, ℕ, ◌+◌, ◌%◌, ◌<◌, ◌≤◌, length, get_or, set};
ghost use Rattle.steps.specs.Steps.{symbol_of};
ghost use Rattle.decide.specs.Stamp.{of_triples, alone};
ghost use Rattle.decide.specs.Gather.{rest_of, added, added_by, Visits, Gains};
ghost use Rattle.decide.specs.Take.{Took, Room, Fits, given_by, from_class, from_classes, AllFit, TriplesReady, TriplesDone};

use crate::Given;
use crate::sets::{NumberSet, gain};
use crate::stamps::stamp;
use lent::Lent;
use steps::{Kind, Row, row_at};
use table::Size;

// What is run after a step of a rule, as a matrix.
fn rest(row: Row, e: &[u64; 32]) -> u64
    requires over_bound { row.over < 32 }
    requires under_bound { row.under < 32 }
    ensures { result ≡ rest_of row.kind row.over row.under e.now }
{
    match row.kind {
        Kind::Exit => 0x8040201008040201, // each state by itself
        Kind::Direct => e[row.over],
        Kind::Call => bits::composed(e[row.over], e[row.under]),
    }
}

// Rule i adds what is run after its step to the matrix of its class. A class that has more by it is noted in the set.
fn visit(i: usize, rules: &Lent, e: &[u64; 32], by: &mut [u64; 256], touched: &mut NumberSet)
    requires i_bound { i < 256 }
    requires by_len { length by.old ≡ 256 }
    ensures { Visits (added rules.now e.now i) touched.old.words by.old touched.new.words by.new }
{
    let row = row_at(rules, i);
    let m = rest(row, e);
    let c = row.class;
    let old = by[c];
    let all = old | m;
    if all == old {
        return;
    }
    by[c] = all;
    touched.insert(c);
}

// The rules of a set. Answers the set of the classes that have more than before.
fn gather(set: NumberSet, rules: &Lent, e: &[u64; 32], by: &mut [u64; 256]) -> NumberSet
    requires { length by.old ≡ 256 }
    ensures { Gains (added_by rules.now e.now set.words) by.old result.words by.new }
{
    let mut touched = NumberSet::empty();
    for i in set {
        visit(i, rules, e, by, &mut touched);
    }
    touched
}

// The symbol of class c takes in what is run after the steps of the class, through its steps, and its new triples get the rank k. Answers the set of
// the symbol if there is one, and else the empty set.
fn settle(
    size: Size,
    c: usize,
    k: u16,
    tg: &[u64; 256],
    by: &[u64; 256],
    e: &mut [u64; 32],
    triples: &mut [u16],
) -> u64
    requires c_bound { c < 256 }
    requires room { Room of_triples size e.old triples.old }
    requires fits { Fits of_triples size (symbol_of c) (given_by tg.now by.now c) }
    ensures { Took of_triples size k (from_class tg.now by.now c) e.old triples.old result e.new triples.new }
{
    let m = bits::product(tg[c], by[c]);
    let g = steps::symbol_of(c);
    let new = gain(e, g, m);
    if new == 0 {
        return 0;
    }
    stamp(triples, size, g, new, k);
    1u64 << (g as u64)
}

// The symbols take in what the round gives the classes of a set. Answers the set of the symbols that changed.
fn settle_all(
    size: Size,
    touched: NumberSet,
    k: u16,
    tg: &[u64; 256],
    by: &[u64; 256],
    e: &mut [u64; 32],
    triples: &mut [u16],
) -> u64
    requires room { Room of_triples size e.old triples.old }
    requires all_fit { AllFit size tg.now by.now }
    ensures { Took of_triples size k (from_classes tg.now by.now touched.words) e.old triples.old result e.new triples.new }
{
    let mut changed: u64 = 0;
    for c in touched {
        changed = changed | settle(size, c, k, tg, by, e, triples);
    }
    changed
}

// The triples of round k, by the rules of a set. Answers the set of the symbols that changed.
pub(crate) fn round_triples(
    k: u16,
    set: NumberSet,
    given: Given,
    by: &mut [u64; 256],
    e: &mut [u64; 32],
    triples: &mut [u16],
) -> u64
    requires { TriplesReady given.size set.words given.rules.now given.tg.now by.old e.old triples.old }
    ensures { TriplesDone given.entry.size k set.words given.entry.rules.now given.entry.tg.now by.old e.old triples.old result by.new e.new triples.new }
{
    let touched = gather(set, given.rules, e, by);
    settle_all(given.size, touched, k, given.tg, by, e, triples)
}
