// What the lines of a listing do, one after another: they collect a table.
#![tactic(auto)]

ghost use Rattle.std.specs.Prelude.{◌≡◌, ℕ, ◌≤◌, length, List};
ghost use Rattle.rows.specs.Lines.{safe_step, head_step, triple_step, step_of, finished, read_lines, read_text};
ghost use Rattle.rows.specs.State.{nothing, whole, before, stepped, ended, Counted};

use line::{Fault, TextError};
use listingline::{Line, Word};
use numbers::Numbers;
use ranking::LARGEST;
use table::Size;

// The most bytes of a listing.
const LONGEST: usize = 45056;

// What is read so far beside the ranks: the header, and how many lines of each kind came. The ranks are collected in two lent arrays.
// The lines are counted in numbers of the machine's width: so the compiler keeps each count in a register of its own.
// `begun` stands beside the header's numbers, and no `Option` of a header: what is promised of a tally speaks of each of them, before the header too.
#[derive(Clone, Copy, Default)]
pub struct Tally {
    pub begun: bool,
    pub rounds: u16,
    pub headcount: u32,
    pub triplecount: u32,
    pub heads: usize,
    pub triples: usize,
}

// The header.
fn take_safe(tally: &mut Tally, n: Numbers) -> Result<(), Fault>
    ensures { (hs ts : List ℕ) → stepped result tally.new hs ts ≡ safe_step (whole tally.old hs ts) n }
{
    if n.count != 3 {
        return Err(Fault::Malformed);
    }
    if tally.begun {
        return Err(Fault::Misplaced);
    }
    let at = n.at;
    let rounds = at[0];
    if LARGEST < rounds {
        return Err(Fault::OutOfRange);
    }
    tally.begun = true;
    tally.rounds = rounds as u16;
    tally.headcount = at[1];
    tally.triplecount = at[2];
    Ok(())
}

// A head's line.
fn take_head(heads: &mut [u16], tally: &mut Tally, size: Size, n: Numbers) -> Result<(), Fault>
    requires { Counted tally.old }
    ensures { (ts : List ℕ) → stepped result tally.new heads.new ts ≡ head_step size (whole tally.old heads.old ts) n }
{
    ranking::rank_head(heads, size, u8::from(tally.begun), n)?;
    tally.heads += 1;
    Ok(())
}

// A triple's line. Two functions, since a closure for the array, the counter and the call would be no plainer.
fn take_triple(triples: &mut [u16], tally: &mut Tally, size: Size, n: Numbers) -> Result<(), Fault>
    requires { Counted tally.old }
    ensures { (hs : List ℕ) → stepped result tally.new hs triples.new ≡ triple_step size (whole tally.old hs triples.old) n }
{
    ranking::rank_triple(triples, size, u8::from(tally.begun), n)?;
    tally.triples += 1;
    Ok(())
}

// What a line does.
fn take_line(
    heads: &mut [u16],
    triples: &mut [u16],
    tally: &mut Tally,
    size: Size,
    l: Line,
) -> Result<(), Fault>
    requires { Counted tally.old }
    ensures { stepped result tally.new heads.new triples.new ≡ step_of size (whole tally.old heads.old triples.old) l }
{
    let n = l.numbers;
    match l.word {
        Word::Safe => take_safe(tally, n),
        Word::Head => take_head(heads, tally, size, n),
        Word::Erase => take_triple(triples, tally, size, n),
        Word::Unknown => Err(Fault::Malformed),
    }
}

// After the last line: whether there was a header, and its counts are the numbers of lines.
fn finish(tally: &Tally) -> Result<(), TextError>
    ensures { (hs ts : List ℕ) → ended result tally.now hs ts ≡ finished (whole tally.now hs ts) }
{
    let agrees = tally.begun
        && tally.heads == tally.headcount as usize
        && tally.triples == tally.triplecount as usize;
    if !agrees {
        let fault = Fault::Misplaced;
        return Err(TextError::Line { fault, line: 0 });
    }
    Ok(())
}

// The lines of a text, one after another, from an empty tally; the first that is refused ends the reading. What is left of the text drives the
// loop: each line takes as many bytes as it has.
fn read_lines(
    heads: &mut [u16],
    triples: &mut [u16],
    tally: &mut Tally,
    size: Size,
    text: &[u8],
) -> Result<(), TextError>
    requires short { length text.now ≤ 45056 }
    requires empty { tally.old ≡ nothing }
    ensures { ended result tally.new heads.new triples.new ≡ read_lines size 1 (before heads.old triples.old) text.now }
{
    let mut rest = text;
    let mut line: usize = 1;
    while 0 < rest.len() {
        let l = line::read_line::<Word>(rest);
        let e = l.end;
        if rest.len() <= e {
            let fault = Fault::Malformed;
            return Err(TextError::Line { fault, line });
        }
        if let Err(fault) = take_line(heads, triples, tally, size, l.line) {
            return Err(TextError::Line { fault, line });
        }
        line += 1;
        rest = &rest[e + 1..];
    }
    finish(tally)
}

// A whole text, unless it is too long; its ranks come to those in the two lent arrays, and the rest to an empty tally. It is lent,
// and no result, since what stands in it where a line is refused is promised too.
pub fn read_text(
    heads: &mut [u16],
    triples: &mut [u16],
    tally: &mut Tally,
    size: Size,
    text: &[u8],
) -> Result<(), TextError>
    ensures { ended result tally.new heads.new triples.new ≡ read_text size (before heads.old triples.old) text.now }
{
    *tally = Tally::default();
    if LONGEST < text.len() {
        return Err(TextError::TooLong);
    }
    read_lines(heads, triples, tally, size, text)
}
