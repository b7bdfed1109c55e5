// The model record: what a model text says, as numbers. specs/Model.antt says which product it means.
#![tactic(auto)]

ghost use Rattle.std.specs.Prelude.{◌≡◌};
ghost use Rattle.product.specs.Product.{symbol};
ghost use Rattle.model.specs.Answers.{meant};

// Counts, the start, and arrays by number. A row of `rulerows` is a rule: its kind (0 exit, 1 direct, 2 call), its symbol, and the
// one or two symbols that it pushes, the top first. A row of `moverows` is a move: state, event, state. `shows` has symbol·16 + event.
#[derive(Drop)]
pub struct Model {
    pub symbols: u8,
    pub states: u8,
    pub events: u8,
    pub startstate: u8,
    pub startsymbol: u8,
    pub finals: [bool; 8],
    pub shows: [bool; 512],
    pub rules: usize,
    pub rulerows: [u8; 1024],
    pub moves: usize,
    pub moverows: [u8; 384],
}

// What a record says beside its arrays.
#[derive(Clone, Copy)]
pub struct Shape {
    pub symbols: u8,
    pub states: u8,
    pub events: u8,
    pub startstate: u8,
    pub startsymbol: u8,
    pub rules: usize,
    pub moves: usize,
}

// A rule: g to nothing; g to g1; g to g1 on top of g2.
#[derive(Clone, Copy)]
pub enum Rule {
    Exit(usize),
    Direct(usize, usize),
    Call(usize, usize, usize),
}

impl Rule {
    // The symbol that the rule replaces.
    pub fn symbol(self) -> usize
        ensures { result ≡ symbol (meant self) }
    {
        match self {
            Rule::Exit(g) => g,
            Rule::Direct(g, _) => g,
            Rule::Call(g, _, _) => g,
        }
    }
}

// A property move, from a state by an event to a state.
#[derive(Clone, Copy)]
pub struct Move {
    pub source: usize,
    pub event: usize,
    pub target: usize,
}
