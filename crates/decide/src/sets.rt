// Sets of numbers below 256, of rules or of classes, in four words; and such sets for each symbol.
ghost use Rattle.std.specs.Prelude.{◌≡◌, ℕ, ◌<◌, ◌+◌, ◌≤◌, ◌*◌, ◌^◌, length, get_or, T};
ghost use Rattle.std.specs.Iterator.{at_most};
ghost use Rattle.bits.specs.Bit.{bit};
ghost use Rattle.decide.specs.Gather.{zeros};
ghost use Rattle.decide.specs.Take.{Gained};
ghost use Rattle.decide.specs.Turn.{Collected};
ghost use Rattle.decide.specs.Sets.{weight, With, PickedIn, Picked, Joined, Put};

use bits::Ones;

// A set of numbers below 256, of rules or of classes: a bit for each.
#[derive(Clone, Copy)]
pub(crate) struct NumberSet {
    pub(crate) words: [u64; 4],
}

impl NumberSet {
    pub(crate) fn empty() -> NumberSet
        ensures { result.words ≡ zeros 4 }
    {
        NumberSet { words: [0u64; 4] }
    }

    // Puts n into the set.
    pub(crate) fn insert(&mut self, n: usize)
        requires { n < 256 }
        ensures { With self.old.words n self.new.words }
    {
        let k = n / 64;
        self.words[k] = self.words[k] | (1u64 << ((n % 64) as u64));
    }

    // Takes the lowest member out of word k, if it has one.
    fn pick_in(&mut self, k: usize) -> Option<usize>
        requires { k < 4 }
        ensures { PickedIn self.old.words k result self.new.words }
    {
        let mut word = Ones(self.words[k]);
        let i = word.next()?;
        self.words[k] = word.0;
        Some(k * 64 + i)
    }

    // Takes the lowest member out of the set, if it has one. The words are named one by one, so that the compiler keeps each in a register: with a loop
    // over them a decision of many rounds takes 4 % longer.
    fn pick(&mut self) -> Option<usize>
        ensures { Picked self.old.words result self.new.words }
    {
        if let Some(i) = self.pick_in(0) {
            return Some(i);
        }
        if let Some(i) = self.pick_in(1) {
            return Some(i);
        }
        if let Some(i) = self.pick_in(2) {
            return Some(i);
        }
        self.pick_in(3)
    }

    // The set takes in the members of set number s.
    fn join(&mut self, sets: &[u64; 384], s: usize)
        requires { s < 96 }
        ensures { Joined self.old.words sets.now s self.new.words }
    {
        for k in 0..4 {
            self.words[k] = self.words[k] | sets[s * 4 + k];
        }
    }
}

impl IntoIterator for NumberSet {
    type Item = usize;

    type IntoIter = Members;

    ghost into_iter_gives = { λ s r. r.left ≡ s };

    fn into_iter(self) -> Members {
        Members { left: self }
    }
}

// The members of a set, from the lowest on: what is left of them.
#[derive(Drop)]
pub(crate) struct Members {
    pub(crate) left: NumberSet,
}

impl Iterator for Members {
    type Item = usize;

    ghost next_gives = { λ s r t. Picked s.left.words r t.left.words };

    ghost remaining = { λ s. at_most (weight s.left.words) };

    fn next(&mut self) -> Option<usize> {
        self.left.pick()
    }
}

// Puts r into set number s. The 96 sets lie in one array, 32 by triples, 32 by what is returned to and 32 by heads: it is large, and filled where it lies.
pub(crate) fn put(sets: &mut [u64; 384], s: usize, r: usize)
    requires s_bound { s < 96 }
    requires r_bound { r < 256 }
    requires sets_len { length sets.old ≡ 384 }
    ensures { Put sets.old s r sets.new }
{
    let at = s * 4 + r / 64;
    sets[at] = sets[at] | (1u64 << ((r % 64) as u64));
}

// The set with the members of those sets, from number `from` on, whose place stands in `places`.
pub(crate) fn collect(sets: &[u64; 384], from: usize, places: u64, set: NumberSet) -> NumberSet
    requires from_bound { from + 32 ≤ 96 }
    requires by_index { (g : ℕ) → T (bit places g) → g < 32 }
    ensures { Collected sets.now from places set.words result.words }
{
    let mut w = set;
    for g in Ones(places) {
        w.join(sets, from + g);
    }
    w
}

// Word g takes in m. Answers the bits that it did not have.
pub(crate) fn gain(held: &mut [u64; 32], g: usize, m: u64) -> u64
    requires g_bound { g < 32 }
    requires held_len { length held.old ≡ 32 }
    ensures { Gained held.old g m result held.new }
{
    let old = held[g];
    let all = old | m;
    held[g] = all;
    all ^ old
}
