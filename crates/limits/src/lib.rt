// Whether a line may stand in a model text, or what is wrong with it, by what was read before it. specs/Limits.antt has the
// tests of each line.
#![tactic(auto)]

ghost use Rattle.std.specs.Prelude.{◌≡◌};
ghost use Rattle.line.specs.Fault.{number_in};
ghost use Rattle.limits.specs.Limits.{refusal, judged, uncounted, size_tests, start_tests, final_tests, event_tests, rule_tests, move_tests, tests};

use line::Fault;
use modelline::{Line, Word};
use numbers::Numbers;

const SYMBOLS: u32 = 32;

const STATES: u32 = 8;

const EVENTS: u32 = 16;

const RULES: usize = 256;

const MOVES: usize = 128;

// What a line is tested against: the sizes, 0 before they are given; `started`, 0 before the start is; the rules and the
// moves so far. `started` stays a number: a bool would take fewer values from the callers of `check_line` and `take_line`.
#[derive(Clone, Copy)]
pub struct Counts {
    pub symbols: u8,
    pub states: u8,
    pub events: u8,
    pub started: u8,
    pub rules: usize,
    pub moves: usize,
}

// The first test that holds decides: the line is malformed or misplaced, one of its numbers is outside its range, or it is
// one too many.
fn first_of(
    malformed: bool,
    misplaced: bool,
    first: bool,
    second: bool,
    third: bool,
    full: bool,
) -> Result<(), Fault>
    ensures { number_in result ≡ refusal (judged malformed misplaced first second third full) }
{
    if malformed {
        return Err(Fault::Malformed);
    }
    if misplaced {
        return Err(Fault::Misplaced);
    }
    if first || second || third {
        return Err(Fault::OutOfRange);
    }
    if full {
        return Err(Fault::TooMany);
    }
    Ok(())
}

// Whether n is no count from 1 to `most`.
fn uncounted(most: u32, n: u32) -> bool
    ensures { result ≡ uncounted most n }
{
    n < 1 || most < n
}

fn check_size(k: Counts, n: Numbers) -> Result<(), Fault>
    ensures { number_in result ≡ refusal (size_tests k n) }
{
    let at = n.at;
    first_of(
        n.count != 3,
        0 < k.symbols,
        uncounted(SYMBOLS, at[0]),
        uncounted(STATES, at[1]),
        uncounted(EVENTS, at[2]),
        false,
    )
}

fn check_start(k: Counts, n: Numbers) -> Result<(), Fault>
    ensures { number_in result ≡ refusal (start_tests k n) }
{
    let at = n.at;
    let symbols = u32::from(k.symbols);
    let states = u32::from(k.states);
    first_of(
        n.count != 2,
        symbols == 0 || 0 < k.started,
        states <= at[0],
        symbols <= at[1],
        false,
        false,
    )
}

fn check_final(k: Counts, n: Numbers) -> Result<(), Fault>
    ensures { number_in result ≡ refusal (final_tests k n) }
{
    let at = n.at;
    let states = u32::from(k.states);
    first_of(
        n.count != 1,
        k.symbols == 0,
        states <= at[0],
        false,
        false,
        false,
    )
}

fn check_event(k: Counts, n: Numbers) -> Result<(), Fault>
    ensures { number_in result ≡ refusal (event_tests k n) }
{
    let at = n.at;
    let symbols = u32::from(k.symbols);
    let events = u32::from(k.events);
    first_of(
        n.count != 2,
        symbols == 0,
        symbols <= at[0],
        events <= at[1],
        false,
        false,
    )
}

// By the count of symbols that a rule takes. Those that a line does not have are read as 0, which is always in range.
fn check_rule(takes: usize, k: Counts, n: Numbers) -> Result<(), Fault>
    ensures { number_in result ≡ refusal (rule_tests takes k n) }
{
    let at = n.at;
    let symbols = u32::from(k.symbols);
    first_of(
        n.count != takes,
        symbols == 0,
        symbols <= at[0],
        symbols <= at[1],
        symbols <= at[2],
        RULES <= k.rules,
    )
}

fn check_move(k: Counts, n: Numbers) -> Result<(), Fault>
    ensures { number_in result ≡ refusal (move_tests k n) }
{
    let at = n.at;
    let states = u32::from(k.states);
    let events = u32::from(k.events);
    first_of(
        n.count != 3,
        k.symbols == 0,
        states <= at[0],
        events <= at[1],
        states <= at[2],
        MOVES <= k.moves,
    )
}

// Whether a line is taken, by its word and its numbers, or what is wrong with it.
pub fn check_line(k: Counts, l: Line) -> Result<(), Fault>
    ensures { number_in result ≡ refusal (tests k l.word l.numbers) }
{
    let w = l.word;
    let n = l.numbers;
    match w {
        Word::Size => check_size(k, n),
        Word::Start => check_start(k, n),
        Word::Final => check_final(k, n),
        Word::Event => check_event(k, n),
        Word::Exit => check_rule(1, k, n),
        Word::Direct => check_rule(2, k, n),
        Word::Call => check_rule(3, k, n),
        Word::Move => check_move(k, n),
        Word::Unknown => Err(Fault::Malformed),
    }
}
