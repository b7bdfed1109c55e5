// Reads a listing into the two lent arrays of a table.
#![tactic(auto)]

ghost use Rattle.std.specs.Prelude.{◌≡◌, ℕ, ◌≤◌, length};
ghost use Rattle.lent.specs.Lending.{model_in};
ghost use Rattle.listing.specs.declared.ListingError.TheVariants.{Refused, Text};
ghost use Rattle.listing.specs.Reading.{filled, Reads};

use fitting::Unfit;
use lent::Lent;
use line::TextError;
use rows::Tally;
use table::ABSENT;

// Why a listing gives no table: the model or the arrays are refused, or the text is. specs/Reading.antt gives the document's number of each.
#[derive(Clone, Copy, PartialEq, Eq, Debug)]
pub enum ListingError {
    Refused(Unfit),
    Text(TextError),
}

impl From<Unfit> for ListingError {
    ghost from_gives = { λ unfit e. e ≡ Refused unfit };

    fn from(unfit: Unfit) -> Self {
        ListingError::Refused(unfit)
    }
}

impl From<TextError> for ListingError {
    ghost from_gives = { λ wrong e. e ≡ Text wrong };

    fn from(wrong: TextError) -> Self {
        ListingError::Text(wrong)
    }
}

// Copies the first n cells: both arrays may be longer than the table.
fn copy(from: &[u16], to: &mut [u16], n: usize)
    requires n_in_bounds { n ≤ length from.now }
    requires n_in_bounds_2 { n ≤ length to.old }
    ensures { to.new ≡ filled n from.now to.old }
{
    to[..n].copy_from_slice(&from[..n]);
}

// The rounds of a listing and its table, for a model: the table is collected first, and copied into the two arrays where the whole is accepted.
pub fn read_listing(
    m: &Lent,
    text: &[u8],
    heads: &mut [u16],
    triples: &mut [u16],
) -> Result<u16, ListingError>
    ensures { Reads (model_in m.now) text.now heads.old triples.old heads.new triples.new result }
{
    let fit = fitting::measure(m, heads.len(), triples.len())?;
    let mut headcells = [ABSENT; 256];
    let mut triplecells = [ABSENT; 2048];
    let mut tally = Tally::default();
    rows::read_text(&mut headcells, &mut triplecells, &mut tally, fit.size, text)?;
    copy(&headcells, heads, fit.heads);
    copy(&triplecells, triples, fit.triples);
    Ok(tally.rounds)
}
