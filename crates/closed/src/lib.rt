// Whether a rule is closed: the consequences of its steps are present. Steps, triples and heads are matrices: those of the steps from state to
// state, and for each of 32 symbols its triples and the row of its heads.
#![tactic(auto)]

ghost use Rattle.std.specs.Prelude.{◌≡◌};
ghost use Rattle.model.specs.Answers.{meant};
ghost use Rattle.closed.specs.Closed.{of_symbol, included, erasing, heads_there, rule_closed};

use model::Rule;

fn of_symbol(xs: &[u64; 32], g: usize) -> u64
    ensures { result ≡ of_symbol xs.now g }
{
    xs[g % 32]
}

// All that is in a is in b.
fn included(a: u64, b: u64) -> bool
    ensures { result ≡ included a b }
{
    a | b == b
}

// The triples that the steps give, by the triples of what the rule puts there.
fn erasing(triples: &[u64; 32], steps: u64, rule: Rule) -> u64
    ensures { result ≡ erasing triples.now steps (meant rule) }
{
    match rule {
        Rule::Exit(_) => steps,
        Rule::Direct(_, g1) => bits::composed(steps, of_symbol(triples, g1)),
        Rule::Call(_, g1, g2) => {
            let rest = bits::composed(of_symbol(triples, g1), of_symbol(triples, g2));
            bits::composed(steps, rest)
        }
    }
}

// The heads that are entered and returned to, where the steps end in the states `after`, are present.
fn heads_there<'a>(triples: &'a [u64; 32], heads: &'a [u64; 32], after: u64, rule: Rule) -> bool
    ensures { result ≡ heads_there triples.now heads.now after (meant rule) }
{
    match rule {
        Rule::Exit(_) => true,
        Rule::Direct(_, g1) => included(after, of_symbol(heads, g1)),
        Rule::Call(_, g1, g2) => {
            if !included(after, of_symbol(heads, g1)) {
                return false;
            }
            let back = bits::through(after, of_symbol(triples, g1));
            included(back, of_symbol(heads, g2))
        }
    }
}

// The rule, of these steps, is closed.
pub fn rule_closed<'a>(triples: &'a [u64; 32], heads: &'a [u64; 32], steps: u64, rule: Rule) -> bool
    ensures { result ≡ rule_closed triples.now heads.now steps (meant rule) }
{
    let g = rule.symbol();
    if !included(erasing(triples, steps, rule), of_symbol(triples, g)) {
        return false;
    }
    heads_there(
        triples,
        heads,
        bits::through(of_symbol(heads, g), steps),
        rule,
    )
}
