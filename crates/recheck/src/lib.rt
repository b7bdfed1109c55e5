// The table check: whether the facts in two lent arrays show that no run violates. It knows the model and the definitions, and no decision.
#![tactic(auto)]

ghost use Rattle.std.specs.Prelude.{◌≡◌};
ghost use Rattle.lent.specs.Lending.{model_in};
ghost use Rattle.recheck.specs.declared.CheckError.TheVariants.{Refused};
ghost use Rattle.recheck.specs.Recheck.{meaning, recheck};

use crate::search::open_step;
use fitting::Unfit;
use lent::Lent;
use table::{Fact, Table};

// Why a table is not accepted. specs/Recheck.antt gives the document's number and values of each.
#[derive(Clone, Copy, PartialEq, Eq, Debug)]
pub enum CheckError {
    Refused(Unfit),
    NoStart,
    Violating,
    Open { rule: usize, by: usize },
}

impl From<Unfit> for CheckError {
    ghost from_gives = { λ unfit e. e ≡ Refused unfit };

    fn from(unfit: Unfit) -> Self {
        CheckError::Refused(unfit)
    }
}

// A rule and a move that are not closed.
#[derive(Clone, Copy)]
struct Opening {
    rule: usize,
    by: usize,
}

mod facts; // the facts of the arrays as matrices
mod search; // the first rule and move that are not closed

// Accepts exactly if the start head is present, no violating fact is, and every consequence of every step is; else the first reason.
pub fn check_table<'a>(m: &'a Lent, heads: &'a [u16], triples: &'a [u16]) -> Result<(), CheckError>
    ensures { meaning result ≡ recheck (model_in m.now) heads.now triples.now }
{
    let fit = fitting::measure(m, heads.len(), triples.len())?;
    let table = Table {
        size: fit.size,
        heads,
        triples,
    };
    let s = lent::shape(m);
    let q = s.startstate as usize;
    let g = s.startsymbol as usize;
    if !table.has(Fact::Head(q, g)) {
        return Err(CheckError::NoStart);
    }
    if !culprit::is_clean(m, &table, q, g) {
        return Err(CheckError::Violating);
    }
    match open_step(m, &table) {
        Some(open) => Err(CheckError::Open {
            rule: open.rule,
            by: open.by,
        }),
        None => Ok(()),
    }
}
