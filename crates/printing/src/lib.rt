// Writes the listing of a table: `safe` with rounds and counts, then each head and each triple that is present, with its rank.
#![tactic(auto)]

ghost use Rattle.std.specs.Prelude.{◌≡◌, ℕ, ◌+◌, ◌*◌, ◌≤◌, length};
ghost use Rattle.text.specs.Put.{Put};
ghost use Rattle.lent.specs.Lending.{model_in};
ghost use Rattle.print.specs.Bytes.{line_bytes};
ghost use Rattle.printing.specs.Listing.{cell_bytes, if_present, present_in, cells_bytes, header_bytes, listing_bytes};
ghost use Rattle.printing.specs.declared.Kind.TheVariants.{Head, Triple};
ghost use Rattle.printing.specs.Writing.{Writes, Cell, Rows, Counts, Whole};

use fitting::Unfit;
use lent::Lent;
use table::{ABSENT, Size};

mod lay; // a line where it has room

// What the cells of an array are of.
#[derive(Clone, Copy)]
pub enum Kind {
    Head,
    Triple,
}

// How many bytes the whole listing has; or that `out` has not room for all of them: no `Option`, since a listing that is cut is no listing that is not there.
#[derive(Clone, Copy, PartialEq, Eq, Debug)]
pub enum Written {
    Bytes(usize),
    Cut,
}

// How many cells are present. By a loop: `filter` and `count` of an iterator took eight more instructions for each cell.
fn count(cells: &[u16]) -> u16
    requires { length cells.now ≤ 2048 }
    ensures { result ≡ length (present_in cells.now (length cells.now)) }
{
    let mut present: u16 = 0;
    for rank in cells {
        if *rank != ABSENT {
            present += 1;
        }
    }
    present
}

// The most bytes of the line of a fact: `erase`, four numbers behind tabs, and a line feed.
const LONGEST: usize = 30;

// Puts the line of a fact: where the longest has room, without a test at each byte. Inlined, since both callers know the lengths:
// as a call it took a listing more than half as many instructions again.
#[inline(always)]
fn put_row(out: &mut [u8], at: usize, word: &[u8], row: &[u16]) -> usize
    requires { length word.now + 6 * length row.now + 1 ≤ 30 }
    ensures { Put out.old out.new at result (line_bytes word.now row.now) }
{
    if out.len().saturating_sub(at) < LONGEST {
        return print::put_line(out, at, word, row);
    }
    lay::line(out, at, word, row)
}

// Puts the line of the head whose cell is i.
fn put_head(out: &mut [u8], at: usize, size: Size, i: usize, rank: u16) -> usize
    requires { Cell size i }
    ensures { Put out.old out.new at result (cell_bytes Head size.symbols size.states i rank) }
{
    let cell = i as u16;
    let g = size.symbols as u16;
    let row = [cell / g, cell % g, rank];
    put_row(out, at, b"head", &row)
}

// Puts the line of the triple whose cell is i.
fn put_triple(out: &mut [u8], at: usize, size: Size, i: usize, rank: u16) -> usize
    requires { Cell size i }
    ensures { Put out.old out.new at result (cell_bytes Triple size.symbols size.states i rank) }
{
    let cell = i as u16;
    let g = size.symbols as u16;
    let q = size.states as u16;
    let h = cell / q;
    let row = [h / g, h % g, cell % q, rank];
    put_row(out, at, b"erase", &row)
}

// Puts the line of cell i, if it is present.
fn put_fact(out: &mut [u8], at: usize, kind: Kind, size: Size, i: usize, rank: u16) -> usize
    requires { Cell size i × (at ≤ length out.old + 1) }
    ensures { Put out.old out.new at result (if_present kind size.symbols size.states i rank) }
{
    if rank == ABSENT {
        return at;
    }
    match kind {
        Kind::Head => put_head(out, at, size, i, rank),
        Kind::Triple => put_triple(out, at, size, i, rank),
    }
}

// Puts the lines of the cells that are present.
fn put_cells(out: &mut [u8], at: usize, kind: Kind, size: Size, cells: &[u16]) -> usize
    requires { Rows size (length cells.now) }
    ensures { Put out.old out.new at result (cells_bytes kind size.symbols size.states cells.now (length cells.now)) }
{
    let mut next = print::place(out.len(), at);
    for (i, rank) in cells.iter().enumerate() {
        next = put_fact(out, next, kind, size, i, *rank);
    }
    next
}

// Puts the header: the rounds, and how many heads and triples are present.
fn put_header(out: &mut [u8], rounds: u16, heads: &[u16], triples: &[u16]) -> usize
    requires { Counts (length heads.now) (length triples.now) }
    ensures { Put out.old out.new 0 result (header_bytes rounds heads.now (length heads.now) triples.now (length triples.now)) }
{
    let row = [rounds, count(heads), count(triples)];
    print::put_line(out, 0, b"safe", &row)
}

// Puts the whole listing of a table's heads and triples.
fn put_listing(out: &mut [u8], size: Size, rounds: u16, heads: &[u16], triples: &[u16]) -> usize
    requires { Whole size (length heads.now) (length triples.now) }
    ensures { Put out.old out.new 0 result (listing_bytes size.symbols size.states rounds heads.now triples.now) }
{
    let first = put_header(out, rounds, heads, triples);
    let next = put_cells(out, first, Kind::Head, size, heads);
    put_cells(out, next, Kind::Triple, size, triples)
}

// Writes the listing of the table into `out`, as much of it as has room.
pub fn write_listing(
    m: &Lent,
    rounds: u16,
    heads: &[u16],
    triples: &[u16],
    out: &mut [u8],
) -> Result<Written, Unfit>
    ensures { Writes (model_in m.now) rounds heads.now triples.now out.old out.new result }
{
    let fit = fitting::measure(m, heads.len(), triples.len())?;
    let n = put_listing(
        out,
        fit.size,
        rounds,
        &heads[..fit.heads],
        &triples[..fit.triples],
    );
    if out.len() < n {
        return Ok(Written::Cut);
    }
    Ok(Written::Bytes(n))
}
