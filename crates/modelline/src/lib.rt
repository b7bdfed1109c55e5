// The words of a model text.
#![tactic(auto)]

ghost use Rattle.modelline.specs.Line.{words, plain};
ghost use Rattle.modelline.specs.declared.Word.TheVariants.{Unknown};

use line::Words;

#[derive(Clone, Copy)]
pub enum Word {
    Size,
    Start,
    Final,
    Event,
    Exit,
    Direct,
    Call,
    Move,
    Unknown,
}

pub type Line = line::Line<Word>;

pub type LineRead = line::LineRead<Word>;

const WORDS: &[(&[u8], Word)] = &[
    (b"size", Word::Size),
    (b"start", Word::Start),
    (b"final", Word::Final),
    (b"event", Word::Event),
    (b"exit", Word::Exit),
    (b"direct", Word::Direct),
    (b"call", Word::Call),
    (b"move", Word::Move),
];

impl Words for Word {
    ghost words = { words };

    ghost UNKNOWN = { Unknown };

    const UNKNOWN: Word = Word::Unknown;

    fn words() -> &'static [(&'static [u8], Word)] {
        WORDS
    }

    ghost plain = { plain };
}
