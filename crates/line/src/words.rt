// The lines of a text whose words are known.
#![tactic(auto)]

ghost use Rattle.std.specs.Prelude.{◌≡◌, ℕ, List, map, IsTrue};
ghost use Rattle.line.specs.Words.{are_plain, spelled, line_at, line_from};

use crate::{read_from, spells};
use numbers::Numbers;

// The words that the lines of a text begin with.
pub trait Words: Copy + 'static {
    ghost words: { List ((List ℕ) × Self) };

    ghost UNKNOWN: { Self };

    // The word of a line that begins with none of them. One more word and no `Option`, since what a line of each word does is said by one list of cases.
    const UNKNOWN: Self;

    // Each with its bytes.
    fn words() -> &'static [(&'static [u8], Self)]
        ensures { map spelled result.now ≡ words };

    // No tab and no line feed stands in one.
    ghost plain: { IsTrue (are_plain words) };
}

// A count of 0 where the fields behind the word are wrong, or the word is unknown.
#[derive(Clone, Copy)]
pub struct Line<W> {
    pub word: W,
    pub numbers: Numbers,
}

// A line and where it ends.
#[derive(Clone, Copy)]
pub struct LineRead<W> {
    pub line: Line<W>,
    pub end: usize,
}

// What the line says that s begins with. An unknown word has no numbers: these begin past the end.
#[inline(always)]
pub fn read_line<W: Words>(s: &[u8]) -> LineRead<W>
    ensures { result ≡ line_at W.words W.UNKNOWN s.now }
{
    match W::words().iter().find(|(bytes, _)| spells(s, bytes)) {
        Some((bytes, word)) => line_from(s, *word, bytes.len() + 1),
        None => line_from(s, W::UNKNOWN, s.len() + 1),
    }
}

// A line with the word, and the numbers from b on.
#[inline(always)]
fn line_from<W>(s: &[u8], word: W, b: usize) -> LineRead<W>
    ensures { result ≡ line_from s.now word b }
{
    let read = read_from(s, b);
    let line = Line {
        word,
        numbers: read.numbers,
    };
    LineRead {
        line,
        end: read.end,
    }
}
