// What `pdcheck` prints, from the text that it reads: the refusal of the text, the trace of a violation, or the listing of a safe table.
#![tactic(auto)]

ghost use Rattle.std.specs.Prelude.{◌≡◌, T, length};
ghost use Rattle.lent.specs.Lending.{model_in, product_in};
ghost use Rattle.product.specs.Verdict.{bound};
ghost use Rattle.model.specs.Valid.{valid};
ghost use Rattle.fitting.specs.Fits.{Fits};
ghost use Rattle.text.specs.Put.{Put};
ghost use Rattle.printing.specs.Writing.{bytes_of};
ghost use Rattle.report.specs.Output.{model_output, check_output};
ghost use Rattle.report.specs.Told.{Told};

use lent::Lent;
use printing::Written;
use trace::{TraceError, Traced};
use violation::{ROOM, put_violation};

// Puts the listing of a safe table. The record is valid and the arrays are long enough, so that it is never refused.
fn put_safe(out: &mut [u8], m: &Lent, rounds: u16, heads: &[u16], triples: &[u16]) -> usize
    requires { Fits (model_in m.now) (length heads.now) (length triples.now) }
    ensures { Put out.old out.new 0 result (bytes_of (model_in m.now) rounds heads.now triples.now) }
{
    let w = printing::write_listing(m, rounds, heads, triples, out);
    match w {
        Ok(Written::Bytes(n)) => n,
        Ok(Written::Cut) => out.len() + 1,
        Err(_) => unreachable!(),
    }
}

// Puts what the trace call told of a valid model. With the budget and the arrays that it had it refuses nothing but a safe table's trace and one that is
// too long.
fn put_told(
    out: &mut [u8],
    m: &Lent,
    told: Result<Traced, TraceError>,
    heads: &[u16],
    triples: &[u16],
    steps: &[u16],
) -> usize
    requires { Told (model_in m.now) told heads.now triples.now steps.now }
    ensures { Put out.old out.new 0 result (model_output (model_in m.now)) }
{
    match told {
        Ok(t) => put_violation(out, m, true, t.rounds, steps, t.steps),
        Err(TraceError::Cut { rounds, room }) => put_violation(out, m, false, rounds, steps, room),
        Err(TraceError::Safe(n)) => put_safe(out, m, n, heads, triples),
        Err(TraceError::Undecided(_)) => unreachable!(),
    }
}

// The budget that is always enough.
fn budget(m: &Lent) -> u32
    requires { T (valid (model_in m.now)) }
    ensures { result ≡ bound (product_in m.now) }
{
    let size = fitting::size_of(m);
    let g = size.symbols as u32;
    let q = size.states as u32;
    g * q * (q + 1)
}

// Decides a valid model and puts what is found.
fn put_model(out: &mut [u8], m: &Lent) -> usize
    requires { T (valid (model_in m.now)) }
    ensures { Put out.old out.new 0 result (model_output (model_in m.now)) }
{
    let mut heads = [0u16; 256];
    let mut triples = [0u16; 2048];
    let mut steps = [0u16; ROOM];
    let b = budget(m);
    let told = trace::trace(m, b, &mut heads, &mut triples, &mut steps);
    put_told(out, m, told, &heads, &triples, &steps)
}

// All that is printed for a text, into `out`, as much of it as has room.
pub fn check_text(text: &[u8], out: &mut [u8]) -> usize
    ensures { Put out.old out.new 0 result (check_output text.now) }
{
    let mut m = lent::blank();
    match refusal::read_or_refuse(text, &mut m, out) {
        Ok(()) => put_model(out, &m),
        Err(end) => end,
    }
}
