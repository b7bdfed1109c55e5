// What `pdrecheck` prints, from the text that it reads: the refusal of the model or of the listing behind it, or the answer of the table check.
#![tactic(auto)]

ghost use Rattle.std.specs.Prelude.{[], ◌∷◌, T, length, replicate};
ghost use Rattle.lent.specs.Lending.{model_in};
ghost use Rattle.model.specs.Valid.{valid};
ghost use Rattle.fitting.specs.Fits.{Fits};
ghost use Rattle.text.specs.Put.{Put};
ghost use Rattle.print.specs.Bytes.{line_bytes};
ghost use Rattle.refusal.specs.Refusal.{refused_word};
ghost use Rattle.listing.specs.Reading.{meaning};
ghost use Rattle.recheck.specs.Recheck.{recheck};
ghost use Rattle.rereport.specs.Output.{check_bytes, listing_bytes, listing_output, recheck_output};
ghost use Rattle.rereport.specs.Heard.{Heard};

use lent::Lent;
use listing::ListingError;
use recheck::CheckError;

// Puts the line of a table that is not accepted.
fn put_open(out: &mut [u8], reason: u16, rule: u16, by: u16) -> usize
    ensures { Put out.old out.new 0 result (line_bytes refused_word (11 ∷ reason ∷ rule ∷ by ∷ [])) }
{
    let row = [11, reason, rule, by];
    print::put_line(out, 0, b"refused", &row)
}

// Puts the answer of the table check. The record is valid and the arrays are long enough, so that it is never refused.
fn put_checked<'a>(out: &mut [u8], m: &'a Lent, heads: &'a [u16], triples: &'a [u16]) -> usize
    requires { Fits (model_in m.now) (length heads.now) (length triples.now) }
    ensures { Put out.old out.new 0 result (check_bytes (recheck (model_in m.now) heads.now triples.now)) }
{
    let c = recheck::check_table(m, heads, triples);
    match c {
        Ok(()) => print::put_all(out, 0, b"accepted\n"),
        Err(CheckError::NoStart) => put_open(out, 1, 0, 0),
        Err(CheckError::Violating) => put_open(out, 2, 0, 0),
        Err(CheckError::Open { rule, by }) => put_open(out, 3, rule as u16, by as u16),
        Err(CheckError::Refused(_)) => unreachable!(),
    }
}

// Puts the refusal of a listing, or the answer for the table that it left. That reading refuses neither the record nor the arrays.
fn put_heard<'a>(
    out: &mut [u8],
    m: &'a Lent,
    heard: Result<u16, ListingError>,
    heads: &'a [u16],
    triples: &'a [u16],
) -> usize
    requires { Heard (model_in m.now) heard (length heads.now) (length triples.now) }
    ensures { Put out.old out.new 0 result (listing_bytes (meaning heard) (recheck (model_in m.now) heads.now triples.now)) }
{
    match heard {
        Ok(_) => put_checked(out, m, heads, triples),
        Err(ListingError::Text(e)) => {
            refusal::put_refused(out, u16::from(e.number()), e.line() as u16)
        }
        Err(ListingError::Refused(_)) => unreachable!(),
    }
}

// Reads the listing of a valid model, checks it and puts the answer.
fn put_listing(out: &mut [u8], m: &Lent, text: &[u8]) -> usize
    requires { T (valid (model_in m.now)) }
    ensures { Put out.old out.new 0 result (listing_output (model_in m.now) text.now (replicate 256 0) (replicate 2048 0)) }
{
    let mut heads = [0u16; 256];
    let mut triples = [0u16; 2048];
    let heard = listing::read_listing(m, text, &mut heads, &mut triples);
    put_heard(out, m, heard, &heads, &triples)
}

// All that is printed for a text, into `out`, as much of it as has room.
pub fn recheck_text(text: &[u8], out: &mut [u8]) -> usize
    ensures { Put out.old out.new 0 result (recheck_output text.now) }
{
    let at = splitter::listing_at(text);
    let mut m = lent::blank();
    match refusal::read_or_refuse(&text[..at], &mut m, out) {
        Ok(()) => put_listing(out, &m, &text[at..]),
        Err(end) => end,
    }
}
