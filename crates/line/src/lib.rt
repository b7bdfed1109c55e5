// One line of a text: whether it begins with a given word, and the numbers behind that. Nothing here knows a word.
#![tactic(auto)]

ghost use Rattle.std.specs.Prelude.{◌≡◌};
ghost use Rattle.line.specs.Line.{spells, from};

use numbers::{FieldsRead, MOST, Numbers};

mod fault; // what is wrong with a text
mod words; // the lines of a text whose words are known

pub use fault::{Fault, TextError};
pub use words::{Line, LineRead, Words, read_line};

// Whether s begins with `word` and a tab behind it. The tab is looked for first: it turns most other words away.
pub fn spells(s: &[u8], word: &[u8]) -> bool
    ensures { result ≡ spells s.now word.now }
{
    let n = word.len();
    if s.len() <= n {
        return false;
    }
    if s[n] != b'\t' {
        return false;
    }
    text::same(&s[..n], word)
}

// The numbers from b on, none where that is past the end, and where the line ends that s begins with.
pub fn read_from(s: &[u8], b: usize) -> FieldsRead
    ensures { result ≡ from s.now b }
{
    if s.len() < b {
        let numbers = Numbers {
            count: 0,
            at: [0; MOST],
        };
        return FieldsRead {
            numbers,
            end: text::find(s, b'\n'),
        };
    }
    let f = numbers::read_fields(&s[b..]);
    let numbers = f.numbers;
    FieldsRead {
        numbers,
        end: b + f.end,
    }
}
