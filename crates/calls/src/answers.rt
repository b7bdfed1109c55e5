// The answers of the calls, each as the line that says it: a word and two numbers. What an answer is in words stands here alone.
use decide::{DecideError, Verdict};
use fitting::Unfit;
use line::TextError;
use recheck::CheckError;
use replay::ReplayError;
use std::fmt;
use trace::{TraceError, Traced};

#[derive(Clone, Copy, PartialEq, Eq)]
pub enum Word {
    Accepted,
    CheckRefused,
    NotClosed,
    Violation,
    Safe,
    Refused,
    Trace,
    TraceRefused,
    TraceCut,
    Replayed,
    ReplayRefused,
}

#[derive(Clone, Copy)]
pub struct Said(pub Word, pub usize, pub usize);

impl Word {
    fn text(self) -> &'static str {
        match self {
            Word::Accepted => "accepted",
            Word::CheckRefused => "check refused",
            Word::NotClosed => "not closed",
            Word::Violation => "violation",
            Word::Safe => "safe",
            Word::Refused => "refused",
            Word::Trace => "trace",
            Word::TraceRefused => "trace refused",
            Word::TraceCut => "trace cut",
            Word::Replayed => "replayed",
            Word::ReplayRefused => "replay refused",
        }
    }
}

impl fmt::Display for Said {
    fn fmt<W: fmt::Write>(&self, f: &mut fmt::Formatter<W>) -> fmt::Result {
        let Said(word, first, second) = *self;
        write!(f, "{}\t{first}\t{second}", word.text())
    }
}

impl From<TextError> for Said {
    fn from(e: TextError) -> Said {
        Said(Word::Refused, usize::from(e.number()), e.line())
    }
}

// The numbers of the refusals that every call with a model and a table has.
fn number(unfit: Unfit) -> usize {
    match unfit {
        Unfit::Invalid => 6,
        Unfit::Short => 7,
    }
}

impl From<Result<(), CheckError>> for Said {
    fn from(r: Result<(), CheckError>) -> Said {
        match r {
            Ok(()) => Said(Word::Accepted, 0, 0),
            Err(CheckError::Refused(unfit)) => Said(Word::CheckRefused, number(unfit), 0),
            Err(CheckError::NoStart) => Said(Word::CheckRefused, 11, 1),
            Err(CheckError::Violating) => Said(Word::CheckRefused, 11, 2),
            Err(CheckError::Open { rule, by }) => Said(Word::NotClosed, rule, by),
        }
    }
}

impl From<Result<Verdict, DecideError>> for Said {
    fn from(r: Result<Verdict, DecideError>) -> Said {
        match r {
            Ok(Verdict::Violation(n)) => Said(Word::Violation, usize::from(n), 0),
            Ok(Verdict::Safe(n)) => Said(Word::Safe, usize::from(n), 0),
            Err(DecideError::Refused(unfit)) => Said(Word::Refused, number(unfit), 0),
            Err(DecideError::Spent(b)) => Said(Word::Refused, 8, b as usize),
        }
    }
}

impl From<Result<Traced, TraceError>> for Said {
    fn from(r: Result<Traced, TraceError>) -> Said {
        match r {
            Ok(t) => Said(Word::Trace, usize::from(t.rounds), t.steps),
            Err(TraceError::Undecided(DecideError::Refused(unfit))) => {
                Said(Word::TraceRefused, number(unfit), 0)
            }
            Err(TraceError::Undecided(DecideError::Spent(b))) => {
                Said(Word::TraceRefused, 8, b as usize)
            }
            Err(TraceError::Safe(n)) => Said(Word::TraceRefused, 9, usize::from(n)),
            Err(TraceError::Cut { rounds, room }) => {
                Said(Word::TraceCut, usize::from(rounds), room)
            }
        }
    }
}

impl From<Result<(), ReplayError>> for Said {
    fn from(r: Result<(), ReplayError>) -> Said {
        match r {
            Ok(()) => Said(Word::Replayed, 0, 0),
            Err(ReplayError::Invalid) => Said(Word::ReplayRefused, 6, 0),
            Err(ReplayError::Short) => Said(Word::ReplayRefused, 7, 0),
            Err(ReplayError::Bad(k)) => Said(Word::ReplayRefused, 12, k),
        }
    }
}
