// What a call with a model and a table tests first: the model (refusal 6), then the length of the two arrays (7). One door for all calls.
#![tactic(auto)]

ghost use Rattle.std.specs.Prelude.{◌≡◌};
ghost use Rattle.lent.specs.Lending.{model_in};
ghost use Rattle.fitting.specs.Fits.{size_of, fit_of};

use lent::Lent;
use table::Size;

// Why a model and two arrays are refused. specs/Fits.antt gives the document's number of each.
#[derive(Clone, Copy, PartialEq, Eq, Debug)]
pub enum Unfit {
    Invalid,
    Short,
}

// The size of a model's table, and how many cells each array has of it.
#[derive(Clone, Copy)]
pub struct Fit {
    pub size: Size,
    pub heads: usize,
    pub triples: usize,
}

// The size of a model's table: its symbols, and the states of its product.
pub fn size_of(m: &Lent) -> Size
    ensures { result ≡ size_of (model_in m.now) }
{
    let s = lent::shape(m);
    Size {
        symbols: s.symbols,
        states: s.states,
    }
}

// Whether arrays of these lengths hold the table of a model.
pub fn measure(m: &Lent, heads: usize, triples: usize) -> Result<Fit, Unfit>
    ensures { result ≡ fit_of (model_in m.now) heads triples }
{
    if !lent::is_valid(m) {
        return Err(Unfit::Invalid);
    }
    let size = size_of(m);
    let h = size.head_count();
    let t = size.triple_count();
    if heads < h || triples < t {
        return Err(Unfit::Short);
    }
    Ok(Fit {
        size,
        heads: h,
        triples: t,
    })
}
