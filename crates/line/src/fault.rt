// What is wrong with a text: with one of its lines, or with the whole of it. specs/Fault.antt has the numbers of the document.
#![tactic(auto)]

ghost use Rattle.std.specs.Prelude.{◌≡◌};
ghost use Rattle.line.specs.Fault.{number_of, text_number, text_line};

// What is wrong with one line, by the number of its refusal.
#[derive(Clone, Copy, PartialEq, Eq, Debug)]
pub enum Fault {
    Malformed = 2,
    Misplaced = 3,
    OutOfRange = 4,
    TooMany = 5,
}

// Why a text is refused: it is too long, or one of its lines is wrong, counted from 1, with 0 where no line is: so the
// description counts and prints it.
#[derive(Clone, Copy, PartialEq, Eq, Debug)]
pub enum TextError {
    TooLong,
    Line { fault: Fault, line: usize },
}

impl Fault {
    // The number of the refusal.
    pub fn number(self) -> u8
        ensures { result ≡ number_of self }
    {
        self as u8
    }
}

impl TextError {
    // The number of the refusal: 1, or the fault's.
    pub fn number(self) -> u8
        ensures { result ≡ text_number self }
    {
        match self {
            TextError::TooLong => 1,
            TextError::Line { fault, .. } => fault.number(),
        }
    }

    // The line that is refused, 0 where none is.
    pub fn line(self) -> usize
        ensures { result ≡ text_line self }
    {
        match self {
            TextError::TooLong => 0,
            TextError::Line { line, .. } => line,
        }
    }
}
