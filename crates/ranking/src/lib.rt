// The rank that a line of a listing gives to a fact: put into the fact's cell, or refused.
#![tactic(auto)]

ghost use Rattle.std.specs.Prelude.{ltb};
ghost use Rattle.table.specs.Places.{fact_of};
ghost use Rattle.ranking.specs.Rank.{rank_fault, head_fault, head_put, triple_fault, triple_put, rank_put, Ranked};

use line::Fault;
use numbers::Numbers;
use table::{ABSENT, Fact, Size};

// The largest rank, and the most rounds.
pub const LARGEST: u32 = 65534;

// Gives a fact its rank. A fact outside its range has no cell, and is held by none.
fn rank_fact(cells: &mut [u16], size: Size, begun: bool, f: Fact, rank: u32) -> Result<(), Fault>
    ensures { Ranked cells.old cells.new (rank_fault size begun cells.old (fact_of f) rank) (rank_put size cells.old (fact_of f) rank) result }
{
    if !begun {
        return Err(Fault::Misplaced);
    }
    let place = size.place_of(f);
    let held = table::read(cells, place);
    if held != ABSENT {
        return Err(Fault::Misplaced);
    }
    if place.is_none() || LARGEST < rank {
        return Err(Fault::OutOfRange);
    }
    table::put(cells, place, rank as u16);
    Ok(())
}

// A head's line: its state, symbol and rank. Another count of numbers is malformed, whatever else is wrong. `begun` is 0 before the header; it stays a
// number, since a bool would take fewer values from callers.
pub fn rank_head(cells: &mut [u16], size: Size, begun: u8, n: Numbers) -> Result<(), Fault>
    ensures { Ranked cells.old cells.new (head_fault size (ltb 0 begun) cells.old n) (head_put size cells.old n) result }
{
    if n.count != 3 {
        return Err(Fault::Malformed);
    }
    let at = n.at;
    let f = Fact::Head(at[0] as usize, at[1] as usize);
    rank_fact(cells, size, 0 < begun, f, at[2])
}

// A triple's line, likewise: its state, symbol, end state and rank. Two functions, since the numbers of a line are taken apart by their count.
pub fn rank_triple(cells: &mut [u16], size: Size, begun: u8, n: Numbers) -> Result<(), Fault>
    ensures { Ranked cells.old cells.new (triple_fault size (ltb 0 begun) cells.old n) (triple_put size cells.old n) result }
{
    if n.count != 4 {
        return Err(Fault::Malformed);
    }
    let at = n.at;
    let f = Fact::Triple(at[0] as usize, at[1] as usize, at[2] as usize);
    rank_fact(cells, size, 0 < begun, f, at[3])
}
