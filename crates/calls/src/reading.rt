// How the reading of a model text ends, and the whole record of an accepted one, as it is asked for.
use crate::answers::Said;
use lent::Lent;
use line::TextError;
use model::{Rule, Shape};
use std::io;

fn sizes(rt: &impl Print, s: Shape) -> io::Result<()> {
    print!(rt; "accepted\t{}\t{}\t{}", s.symbols, s.states, s.events)?;
    print!(rt;
        "\t{}\t{}\t{}\t{}",
        s.startstate, s.startsymbol, s.rules, s.moves
    )
}

// A rule's kind, 0 to 2, its symbol, and the symbols that it pushes, or 0.
fn rule(rt: &impl Print, rule: Rule) -> io::Result<()> {
    match rule {
        Rule::Exit(g) => print!(rt; "\t0\t{g}\t0\t0"),
        Rule::Direct(g, g1) => print!(rt; "\t1\t{g}\t{g1}\t0"),
        Rule::Call(g, g1, g2) => print!(rt; "\t2\t{g}\t{g1}\t{g2}"),
    }
}

fn rules(rt: &impl Print, m: &Lent, count: usize) -> io::Result<()> {
    print!(rt; "\nrules")?;
    for r in 0..count {
        rule(rt, lent::rule_at(m, r))?;
    }
    Ok(())
}

fn moves(rt: &impl Print, m: &Lent, count: usize) -> io::Result<()> {
    print!(rt; "\nmoves")?;
    for v in 0..count {
        let by = lent::move_at(m, v);
        print!(rt; "\t{}\t{}\t{}", by.source, by.event, by.target)?;
    }
    Ok(())
}

fn finals(rt: &impl Print, m: &Lent) -> io::Result<()> {
    print!(rt; "\nfinals")?;
    for q in 0..8 {
        if lent::is_final(m, q) {
            print!(rt; "\t{q}")?;
        }
    }
    Ok(())
}

// The events above 0, which every symbol shows, as symbol·16 + event.
fn shown(rt: &impl Print, m: &Lent) -> io::Result<()> {
    print!(rt; "\nshows")?;
    for at in 0..512 {
        let e = at % 16;
        if e != 0 && lent::shows(m, at / 16, e) {
            print!(rt; "\t{at}")?;
        }
    }
    println!(rt;)
}

fn record(rt: &impl Print, m: &Lent) -> io::Result<()> {
    let s = lent::shape(m);
    sizes(rt, s)?;
    rules(rt, m, s.rules)?;
    moves(rt, m, s.moves)?;
    finals(rt, m)?;
    shown(rt, m)
}

pub fn show_reading(rt: &impl Print, reading: Result<(), TextError>, m: &Lent) -> io::Result<()> {
    let Err(e) = reading else {
        return record(rt, m);
    };
    let said = Said::from(e);
    println!(rt; "{said}")
}
