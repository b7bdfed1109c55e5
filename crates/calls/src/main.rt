// Calls the reader on many texts, and the decision, the table check, the trace and the replay on many models, and writes every answer and
// the lent cells afterwards, also past the table. Standard input is a row of texts, each behind a line of numbers: its length alone where it
// is only read; else also the budget, the room and which array is too short (1 heads, 2 triples, 3 the replay's stack). tests/expected.py
// makes it, and says by the second program what is to be written.
#![tactic(auto)]

ghost use Rattle.std.specs.Prelude.{◌≤◌};

use answers::{Said, Word};
use lent::Lent;
use parts::{Part, Parts};
use std::io::Result;
use table::Size;

mod answers; // each answer as a line
mod parts; // the texts that are read
mod reading; // how a reading ends
mod show; // rows of cells

fn check(rt: &impl Print, m: &Lent, heads: &[u16], triples: &[u16]) -> Result<()> {
    let said = Said::from(recheck::check_table(m, heads, triples));
    println!(rt; "{said}")
}

// The table's cells, and how many of all cells are still as they were.
fn show_table(rt: &impl Print, size: Size, heads: &[u16], triples: &[u16]) -> Result<()> {
    print!(rt; "heads")?;
    show::cells(rt, heads, size.head_count())?;
    print!(rt; "\ntriples")?;
    show::cells(rt, triples, size.triple_count())?;
    let h = show::count(heads, 7);
    let t = show::count(triples, 7);
    println!(rt; "\nsevens\t{h}\t{t}")
}

// The decision, what it left, and the check of it.
fn decided(
    rt: &impl Print,
    m: &Lent,
    budget: u32,
    heads: &mut [u16],
    triples: &mut [u16],
) -> Result<()> {
    let said = Said::from(decide::decide(m, budget, heads, triples));
    println!(rt; "{said}")?;
    show_table(rt, fitting::size_of(m), heads, triples)?;
    check(rt, m, heads, triples)
}

// How many steps were stored.
fn stored(said: Said) -> usize {
    if said.0 == Word::TraceRefused {
        0
    } else {
        said.2
    }
}

// The replay of the steps that were stored, and how much of its stack is cleared.
fn replayed(rt: &impl Print, m: &Lent, steps: &[u16], stack: &mut [u8]) -> Result<()> {
    let said = Said::from(replay::replay_steps(m, steps, stack));
    println!(rt; "{said}")?;
    let cleared = show::count(stack, 0);
    println!(rt; "cleared\t{cleared}\t0")
}

// The trace, and the replay of the steps that it stored.
fn traced(
    rt: &impl Print,
    m: &Lent,
    budget: u32,
    heads: &mut [u16],
    triples: &mut [u16],
    steps: &mut [u16],
    stack: &mut [u8],
) -> Result<()> {
    let said = Said::from(trace::trace(m, budget, heads, triples, steps));
    println!(rt; "{said}")?;
    print!(rt; "steps")?;
    show::cells(rt, steps, 12)?;
    println!(rt;)?;
    match steps.get(..stored(said)) {
        Some(run) => replayed(rt, m, run, stack),
        None => Ok(()),
    }
}

// How many cells an array has: n, or none where it is the one that is too short.
fn kept(short: u32, which: u32, n: usize) -> usize
    ensures { result ≤ n }
{
    if short == which { 0 } else { n }
}

// The decision between two checks, in arrays full of other numbers.
fn call_decision(rt: &impl Print, m: &Lent, budget: u32, short: u32) -> Result<()> {
    let mut heads = [7u16; 260];
    let mut triples = [7u16; 2060];
    let h = kept(short, 1, 260);
    let t = kept(short, 2, 2060);
    check(rt, m, &heads[..h], &triples[..t])?;
    decided(rt, m, budget, &mut heads[..h], &mut triples[..t])
}

// The trace and its replay, in arrays that hold every fact at rank 0 beforehand.
fn call_trace(rt: &impl Print, m: &Lent, budget: u32, room: usize, short: u32) -> Result<()> {
    if 8200 < room {
        return Ok(());
    }
    let mut heads = [0u16; 260];
    let mut triples = [0u16; 2060];
    let mut steps = [9u16; 8200];
    let mut stack = [5u8; 8300];
    let h = kept(short, 1, 260);
    let t = kept(short, 2, 2060);
    let s = kept(short, 3, 8300);
    traced(
        rt,
        m,
        budget,
        &mut heads[..h],
        &mut triples[..t],
        &mut steps[..room],
        &mut stack[..s],
    )
}

// A text is read; and the calls are made where four numbers are given.
fn answer(rt: &impl Print, part: Part) -> Result<()> {
    let mut m = lent::blank();
    let reading = reader::read_model(part.text, &mut m);
    if part.numbers.count != 4 {
        return reading::show_reading(rt, reading, &m);
    }
    let [_, budget, room, short] = part.numbers.at;
    call_decision(rt, &m, budget, short)?;
    call_trace(rt, &m, budget, room as usize, short)
}

fn answer_each(rt: &impl Print, row: &[u8]) -> Result<()> {
    for part in Parts(row) {
        answer(rt, part)?;
    }
    Ok(())
}

fn run(rt: &(impl Input + Print), space: &mut [u8]) -> Result<()> {
    let n = input::read_full(&mut rt.reader(), space)?;
    answer_each(rt, &space[..n])
}

fn main(rt: HostRuntime) -> Result<()> {
    let mut space = [0u8; 262144];
    run(&rt, &mut space)
}
