// The words of a listing.
#![tactic(auto)]

ghost use Rattle.listingline.specs.Line.{words, plain};
ghost use Rattle.listingline.specs.declared.Word.TheVariants.{Unknown};

use line::Words;

#[derive(Clone, Copy)]
pub enum Word {
    Safe,
    Head,
    Erase,
    Unknown,
}

pub type Line = line::Line<Word>;

pub type LineRead = line::LineRead<Word>;

// Nearly all lines begin with one of the first two.
const WORDS: &[(&[u8], Word)] = &[
    (b"erase", Word::Erase),
    (b"head", Word::Head),
    (b"safe", Word::Safe),
];

impl Words for Word {
    ghost words = { words };

    ghost UNKNOWN = { Unknown };

    const UNKNOWN: Word = Word::Unknown;

    fn words() -> &'static [(&'static [u8], Word)] {
        WORDS
    }

    ghost plain = { plain };
}
