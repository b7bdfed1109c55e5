// The two lent arrays of a table: 16-bit ranks, 65,535 for a fact that isn't held. Here alone is said what a fact is, and where its cell lies.
#![tactic(auto)]

ghost use Rattle.std.specs.Prelude.{◌≡◌};
ghost use Rattle.product.specs.Facts.{head};
ghost use Rattle.table.specs.Cells.{head_count, triple_count, cleared};
ghost use Rattle.table.specs.Places.{fact_of, place_of, read_at, put_at};
ghost use Rattle.table.specs.Looked.{held_in, ranks_in};

// The number that marks a fact that isn't held.
pub const ABSENT: u16 = 65535;

// How many symbols and states a table is for. Where a number of them is widened, here and in the crates above, it is by `as`: in a proof that is the number
// itself, and `usize::from` a call with a clause.
#[derive(Clone, Copy)]
pub struct Size {
    pub symbols: u8,
    pub states: u8,
}

impl Size {
    // How many heads a table has.
    pub fn head_count(self) -> usize
        ensures { result ≡ head_count self.symbols self.states }
    {
        (self.states as usize) * (self.symbols as usize)
    }

    // How many triples.
    pub fn triple_count(self) -> usize
        ensures { result ≡ triple_count self.symbols self.states }
    {
        self.head_count() * (self.states as usize)
    }

    // The place of a head, or none, where its numbers are out of range. The row of the triples from there has the same number.
    fn row(self, q: usize, g: usize) -> Option<usize>
        ensures { result ≡ place_of self.symbols self.states (head q g) }
    {
        if self.states as usize <= q || self.symbols as usize <= g {
            return None;
        }
        Some(q * (self.symbols as usize) + g)
    }

    // The place of a fact, in the array of its kind, or none, where the fact's numbers are out of range.
    pub fn place_of(self, f: Fact) -> Option<usize>
        ensures { result ≡ place_of self.symbols self.states (fact_of f) }
    {
        match f {
            Fact::Head(q, g) => self.row(q, g),
            Fact::Triple(q, g, e) => {
                let i = self.row(q, g)?;
                if self.states as usize <= e {
                    return None;
                }
                Some(i * (self.states as usize) + e)
            }
        }
    }
}

// A fact: a head, of a state and a symbol; or a triple, of a state, a symbol and the state in which the symbol is erased.
#[derive(Clone, Copy)]
pub enum Fact {
    Head(usize, usize),
    Triple(usize, usize, usize),
}

// A table as it is looked at: its size, and the two lent arrays of its ranks. Every value is allowed.
#[derive(Clone, Copy)]
pub struct Table<'a> {
    pub size: Size,
    pub heads: &'a [u16],
    pub triples: &'a [u16],
}

impl Table<'_> {
    // The rank of a fact; one whose numbers are out of range is absent.
    pub fn rank_at(&self, f: Fact) -> u16
        ensures { result ≡ ranks_in self.now (fact_of f) }
    {
        let place = self.size.place_of(f);
        match f {
            Fact::Head(_, _) => read(self.heads, place),
            Fact::Triple(_, _, _) => read(self.triples, place),
        }
    }

    // The fact is present: it has a rank, and any number but 65,535 is one.
    pub fn has(&self, f: Fact) -> bool
        ensures { result ≡ held_in self.now (fact_of f) }
    {
        self.rank_at(f) != ABSENT
    }
}

// The rank at a place: 65,535 where there is none, and 0 past the end of the array.
pub fn read(cells: &[u16], place: Option<usize>) -> u16
    ensures { result ≡ read_at cells.now place }
{
    let Some(i) = place else {
        return ABSENT;
    };
    if cells.len() <= i {
        return 0;
    }
    cells[i]
}

// Puts the rank n at a place; where there is none, or past the end of the array, nothing changes.
pub fn put(cells: &mut [u16], place: Option<usize>, n: u16)
    ensures { cells.new ≡ put_at cells.old place n }
{
    let Some(i) = place else {
        return;
    };
    if i < cells.len() {
        cells[i] = n;
    }
}

// Marks the first n cells absent, or all where there are fewer.
pub fn clear(cells: &mut [u16], n: usize)
    ensures { cells.new ≡ cleared n cells.old }
{
    let count = n.min(cells.len());
    cells[..count].fill(ABSENT);
}
