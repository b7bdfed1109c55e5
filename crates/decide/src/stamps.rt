// The ranks of new facts, put into the two lent arrays.
ghost use Rattle.decide.specs.Stamp.{of_heads, of_triples, view_of, Became, alone, named, ranked, Stamps};

use bits::Ones;
use table::{Fact, Size};

// The triples of symbol g that stand in the matrix get the rank k. All have a cell, so that it need not be asked for each.
pub(crate) fn stamp(triples: &mut [u16], size: Size, g: usize, bits: u64, k: u16)
    requires { Stamps of_triples size g bits triples.old }
    ensures { Became of_triples size triples.old (ranked k (named of_triples (alone g bits)) (view_of of_triples size triples.old)) triples.new }
{
    let first = g * (size.states as usize);
    let row = size.head_count(); // the triples of a state lie so far from those of the next
    for i in Ones(bits) {
        triples[first + i / 8 * row + i % 8] = k;
    }
}

// The heads of symbol g that stand in the row get the rank k. By their places, since they are few; the triples are not.
pub(crate) fn stamp_heads(heads: &mut [u16], size: Size, g: usize, bits: u64, k: u16)
    requires { Stamps of_heads size g bits heads.old }
    ensures { Became of_heads size heads.old (ranked k (named of_heads (alone g bits)) (view_of of_heads size heads.old)) heads.new }
{
    for q in Ones(bits) {
        let place = size.place_of(Fact::Head(q, g));
        table::put(heads, place, k);
    }
}
