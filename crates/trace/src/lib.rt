// The trace: the explanation of a fact, found in the two arrays of ranks, and unfolded to the steps of a run.
#![tactic(auto)]

ghost use Rattle.std.specs.Prelude.{◌≡◌, [], ◌∷◌, ◌+◌, ◌*◌, ◌<◌, length};
ghost use Rattle.lent.specs.Lending.{shape_in, of_lent, model_in};
ghost use Rattle.text.specs.Put.{Put};
ghost use Rattle.table.specs.Looked.{ranks_in};
ghost use Rattle.explain.specs.Answers.{search_in};
ghost use Rattle.trace.specs.Unfold.{Storable, Unfolded};
ghost use Rattle.trace.specs.Written.{Ranked, Written};
ghost use Rattle.trace.specs.Outcome.{Outcome};
ghost use Rattle.trace.specs.declared.TraceError.TheVariants.{Undecided};

use decide::{DecideError, Verdict};
use explain::Counts;
use lent::Lent;
use model::Shape;
use table::{Fact, Table};

// A whole trace: the rounds of its verdict, and its number of steps.
#[derive(Clone, Copy, PartialEq, Eq, Debug)]
pub struct Traced {
    pub rounds: u16,
    pub steps: usize,
}

// Why there is none, or not the whole of one. specs/Outcome.antt gives the document's number and values of each.
#[derive(Clone, Copy, PartialEq, Eq, Debug)]
pub enum TraceError {
    Undecided(DecideError),
    Safe(u16),
    Cut { rounds: u16, room: usize },
}

impl From<DecideError> for TraceError {
    ghost from_gives = { λ undecided e. e ≡ Undecided undecided };

    fn from(undecided: DecideError) -> Self {
        TraceError::Undecided(undecided)
    }
}

// A run that is to be written: the fact whose run it is, or none, and the place of its first step.
#[derive(Clone, Copy)]
struct Run {
    of: Option<Fact>,
    at: usize,
}

// Writes a step, if there is room, and gives the next place: one past the end of the room where it was cut.
fn put(room: &mut [u16], at: usize, rule: usize, by: usize) -> usize
    requires { (rule < 256) × (by < 128) }
    ensures { Put room.old room.new at result ((rule * 128 + by) ∷ []) }
{
    if room.len() <= at {
        return room.len() + 1;
    }
    room[at] = (rule * 128 + by) as u16;
    at + 1
}

// Writes the steps of a run, and gives the place after them. Where it is cut already it ends at once: an unfolding can be exponential in the rank.
fn unfold_fact(room: &mut [u16], m: &Lent, table: &Table<'_>, n: Counts, run: Run) -> usize
    requires { Storable n.rules n.moves run.at (length room.old) }
    ensures { Unfolded (ranks_in table.now) (search_in m.now table.now n) run.of room.old run.at result room.new }
{
    let at = run.at;
    if room.len() < at {
        return at;
    }
    let Some(c) = explain::explain(m, table, n, run.of) else {
        return at;
    };
    let of = c.before;
    let here = unfold_fact(room, m, table, n, Run { of, at });
    let at = put(room, here, c.rule, c.by);
    let of = c.first;
    let at = unfold_fact(room, m, table, n, Run { of, at });
    let of = c.second;
    unfold_fact(room, m, table, n, Run { of, at })
}

// The trace of a violation after n rounds, into the room, of a model whose shape was asked for. The arrays come one by one: what is required of them says
// nothing of a size, and a table would.
fn write_trace<'a>(
    room: &mut [u16],
    shape: Shape,
    m: &'a Lent,
    heads: &'a [u16],
    triples: &'a [u16],
    n: u16,
) -> Result<Traced, TraceError>
    requires shape_value { shape ≡ shape_in m.now }
    requires ranked { Ranked (of_lent shape m.now) n heads.now triples.now }
    ensures { Written (of_lent shape m.now) n room.old result room.new }
{
    let size = fitting::size_of(m);
    let table = Table {
        size,
        heads,
        triples,
    };
    let q = shape.startstate as usize;
    let g = shape.startsymbol as usize;
    let of = culprit::culprit(m, &table, q, g);
    let counts = Counts {
        rules: shape.rules,
        moves: shape.moves,
    };
    let at = unfold_fact(room, m, &table, counts, Run { of, at: 0 });
    if room.len() < at {
        return Err(TraceError::Cut {
            rounds: n,
            room: room.len(),
        });
    }
    Ok(Traced {
        rounds: n,
        steps: at,
    })
}

// Decides a model within a budget of rounds, and then writes the trace of a violation into the room, as far as it fits. A room of 0 cells is a room.
pub fn trace(
    m: &Lent,
    budget: u32,
    heads: &mut [u16],
    triples: &mut [u16],
    room: &mut [u16],
) -> Result<Traced, TraceError>
    ensures { Outcome (model_in m.now) budget heads.old triples.old room.old result heads.new triples.new room.new }
{
    let verdict = decide::decide(m, budget, heads, triples)?;
    match verdict {
        Verdict::Violation(n) => {
            let shape = lent::shape(m);
            write_trace(room, shape, m, heads, triples, n)
        }
        Verdict::Safe(n) => Err(TraceError::Safe(n)),
    }
}
