// The facts of the two arrays as matrices: for each symbol its triples, and the row of its heads. Any number but 65,535 means present.
ghost use Rattle.std.specs.Prelude.{not, ◌&&◌, ◌||◌, ◌≡◌, ℕ, ◌+◌, ◌<◌, ◌≤◌, eqb, length};
ghost use Rattle.product.specs.Facts.{head, triple};
ghost use Rattle.product.specs.Table.{absent};
ghost use Rattle.bits.specs.Bit.{bit};
ghost use Rattle.bits.specs.Matrix.{mat, mats};
ghost use Rattle.table.specs.Cells.{head_count, triple_count};
ghost use Rattle.table.specs.Looked.{held_in};
ghost use Rattle.recheck.specs.Rows.{InCells, present};

use table::Table;

// The bit k is set, if the cell's fact is present.
fn with_cell(m: u64, cell: u16, k: usize) -> u64
    requires { k < 64 }
    ensures { (i : ℕ) → bit result i ≡ bit m i || (not (eqb cell absent) && eqb k i) }
{
    if cell == table::ABSENT {
        return m;
    }
    m | (1u64 << (k as u64))
}

// The same of n cells from `at` on, `apart` from one another, and of as many bits from k on.
fn with_row(m: u64, cells: &[u16], at: usize, apart: usize, k: usize, n: usize) -> u64
    requires { InCells (length cells.now) at apart k n }
    ensures { (i : ℕ) → bit result i ≡ bit m i || present cells.now at apart k n i }
{
    let mut r = m;
    for e in 0..n {
        r = with_cell(r, cells[at + e * apart], k + e);
    }
    r
}

// Eight cells from `at` on, as a row: their number is fixed, so that the compiler takes them without a loop.
fn row_of_eight(cells: &[u16], at: usize) -> u64
    requires { at + 8 ≤ length cells.now }
    ensures { (i : ℕ) → bit result i ≡ present cells.now at 1 0 8 i }
{
    let mut r: u64 = 0;
    for e in 0..8 {
        r = with_cell(r, cells[at + e], e);
    }
    r
}

// The triples of symbol g where there are eight states, the most: each row is gathered by itself, and then put in its place.
fn triples_of_eight(table: &Table<'_>, g: usize) -> u64
    requires g_lt_symbols { g < table.now.size.symbols }
    requires states_value { table.now.size.states ≡ 8 }
    requires states_in_bounds { triple_count table.now.size.symbols table.now.size.states ≤ length table.now.triples.now }
    ensures { (q e : ℕ) → mat result q e ≡ held_in table.now (triple q g e) }
{
    let symbols = table.size.symbols as usize;
    let mut m: u64 = 0;
    for q in 0..8 {
        let row = row_of_eight(table.triples, (q * symbols + g) * 8);
        m = m | (row << ((q * 8) as u64));
    }
    m
}

// The triples of symbol g: a row for each state.
fn triples_of(table: &Table<'_>, g: usize) -> u64
    requires g_lt_symbols { g < table.now.size.symbols }
    requires states_bound { table.now.size.states ≤ 8 }
    requires states_in_bounds { triple_count table.now.size.symbols table.now.size.states ≤ length table.now.triples.now }
    ensures { (q e : ℕ) → mat result q e ≡ held_in table.now (triple q g e) }
{
    if table.size.states == 8 {
        return triples_of_eight(table, g);
    }
    let states = table.size.states as usize;
    let symbols = table.size.symbols as usize;
    let mut m: u64 = 0;
    for q in 0..states {
        m = with_row(
            m,
            table.triples,
            (q * symbols + g) * states,
            1,
            q * 8,
            states,
        );
    }
    m
}

pub(crate) fn all_triples(table: &Table<'_>) -> [u64; 32]
    requires symbols_bound { table.now.size.symbols ≤ 32 }
    requires states_bound { table.now.size.states ≤ 8 }
    requires states_in_bounds { triple_count table.now.size.symbols table.now.size.states ≤ length table.now.triples.now }
    ensures { (g : ℕ) → g < table.now.size.symbols → (q e : ℕ) → mats result g q e ≡ held_in table.now (triple q g e) }
{
    let symbols = table.size.symbols as usize;
    let mut ts = [0u64; 32];
    for g in 0..symbols {
        ts[g] = triples_of(table, g);
    }
    ts
}

pub(crate) fn all_heads(table: &Table<'_>) -> [u64; 32]
    requires symbols_bound { table.now.size.symbols ≤ 32 }
    requires states_bound { table.now.size.states ≤ 8 }
    requires states_in_bounds { head_count table.now.size.symbols table.now.size.states ≤ length table.now.heads.now }
    ensures { (g : ℕ) → g < table.now.size.symbols → (q : ℕ) → mats result g 0 q ≡ held_in table.now (head q g) }
{
    let states = table.size.states as usize;
    let symbols = table.size.symbols as usize;
    let mut hs = [0u64; 32];
    for g in 0..symbols {
        hs[g] = with_row(0, table.heads, g, symbols, 0, states);
    }
    hs
}
