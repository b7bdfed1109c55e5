// Reads a model from its text into the lent bytes. specs/Text.antt says what is read, and specs/Says.antt what an accepted record holds.
#![tactic(auto)]

ghost use Rattle.std.specs.Prelude.{◌≡◌, ◌≤◌, length, replicate};
ghost use Rattle.std.proofs.lemmas.List.Edits.{sets};
ghost use Rattle.text.specs.Split.{first, later};
ghost use Rattle.draft.specs.Draft.{Draft};
ghost use Rattle.draft.specs.Written.{Stands};
ghost use Rattle.reader.specs.Reading.{LinesRead, Read};
ghost use Rattle.reader.specs.Text.{no_outline, last_of, fresh, finished, read_from, read_model};

use draft::Outline;
use lent::Lent;
use limits::Counts;
use line::{Fault, TextError};
use modelline::Word;

// The longest text that is read.
const LONGEST: usize = 16384;

// The bytes of the empty record.
fn clear(m: &mut Lent)
    ensures { m.new ≡ replicate 1936 0 }
{
    *m = [0u8; 1936];
}

fn no_outline() -> Outline
    ensures { result ≡ no_outline }
{
    let counts = Counts {
        symbols: 0,
        states: 0,
        events: 0,
        started: 0,
        rules: 0,
        moves: 0,
    };
    Outline {
        counts,
        startstate: 0,
        startsymbol: 0,
    }
}

// The last bytes, which say what the outline does.
fn put_outline(m: &mut Lent, o: Outline)
    ensures { m.new ≡ sets m.old 1928 (last_of o) }
{
    let counts = o.counts;
    let rules = counts.rules;
    m[1928] = counts.symbols;
    m[1929] = counts.states;
    m[1930] = counts.events;
    m[1931] = o.startstate;
    m[1932] = o.startsymbol;
    m[1933] = (rules % 256) as u8;
    m[1934] = (rules / 256 % 256) as u8;
    m[1935] = (counts.moves % 256) as u8;
}

// After the last line: what was read is a draft d.
fn finish(m: &mut Lent, o: Outline) -> Result<(), TextError>
    ensures { (d : Draft) → Stands (replicate 8 0) o m.old d → LinesRead (finished d) result m.new }
{
    if o.counts.started == 0 {
        return Err(TextError::Line {
            fault: Fault::Misplaced,
            line: 0,
        });
    }
    put_outline(m, o);
    Ok(())
}

// Line by line: what stands after the last line feed is no line, and must be empty. The bytes are those of the empty record.
// What is left of the text drives the loop: each line takes as many bytes as it has.
fn read_lines(text: &[u8], m: &mut Lent) -> Result<(), TextError>
    requires text_len_bound { length text.now ≤ 16384 }
    requires m_value { m.old ≡ replicate 1936 0 }
    ensures { LinesRead (read_from 1 fresh (first 10 text.now) (later 10 text.now)) result m.new }
{
    let mut o = no_outline();
    let mut left = text;
    let mut n: usize = 1;
    while !left.is_empty() {
        let l = line::read_line::<Word>(left);
        let e = l.end;
        if left.len() <= e {
            return Err(TextError::Line {
                fault: Fault::Malformed,
                line: n,
            });
        }
        match draft::take_line(m, o, l.line) {
            Ok(next) => o = next,
            Err(fault) => return Err(TextError::Line { fault, line: n }),
        }
        n += 1;
        left = &left[e + 1..];
    }
    finish(m, o)
}

// Reads the model of a text. A text that is refused leaves the bytes of the empty record.
pub fn read_model(text: &[u8], m: &mut Lent) -> Result<(), TextError>
    ensures { Read (read_model text.now) result m.new }
{
    clear(m);
    if LONGEST < text.len() {
        return Err(TextError::TooLong);
    }
    if let Err(e) = read_lines(text, m) {
        clear(m);
        return Err(e);
    }
    Ok(())
}
