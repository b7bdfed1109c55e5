// Matrices of bits: a relation between eight states in one number of 64 bits, a set of states in its first row.
#![tactic(auto)]

ghost use Rattle.std.specs.Prelude.{◌≡◌, ℕ, ◌<◌};
ghost use Rattle.std.specs.Iterator.{at_most};
ghost use Rattle.bits.specs.Bit.{bit, word};
ghost use Rattle.bits.specs.Matrix.{entry, some, multiplied, image};
ghost use Rattle.bits.specs.Ones.{TakesLowest};

// The boolean product of two matrices: one relation, and then the other. Column k of a meets row k of b: each byte of the column is 0 or 1, so the
// numbers' product has the row in the bytes with a 1.
pub fn product(a: u64, b: u64) -> u64
    ensures { result ≡ multiplied a b }
{
    let mut c: u64 = 0;
    for k in 0..8u64 {
        let col = (a >> k) & 0x0101010101010101;
        let row = (b >> (8 * k)) & 255;
        c = c | (col * row);
    }
    c
}

// The product of two matrices; where one is empty, none is needed.
pub fn composed(a: u64, b: u64) -> u64
    ensures { result ≡ multiplied a b }
{
    if a == 0 || b == 0 {
        return 0;
    }
    product(a, b)
}

// The first row of v as a first column: bit k at 8·k. Copies of the low seven bits, seven apart, have it there; bit 7 is moved by itself.
fn column(v: u64) -> u64
    ensures { (k : ℕ) → k < 8 → entry result k 0 ≡ bit v k }
{
    ((v & 127) * 0x40810204081) | (v << 49)
}

// Row k full where v has state k, and empty where not.
fn spread(v: u64) -> u64
    ensures { (k x : ℕ) → k < 8 → x < 8 → entry result k x ≡ bit v k }
{
    (column(v) & 0x0101010101010101) * 255
}

// The eight rows of c joined in one.
fn joined(c: u64) -> u64
    ensures { result ≡ word 8 (λ x. some 8 (λ k. entry c k x)) }
{
    let four = c | (c >> 32);
    let two = four | (four >> 16);
    (two | (two >> 8)) & 255
}

// Where b leads from the states in the first row of v: the rows of b that it names, joined.
pub fn through(v: u64, b: u64) -> u64
    ensures { result ≡ image v b }
{
    joined(spread(v) & b)
}

// The places of the bits of a word, from the lowest on: what is left of them.
#[derive(Drop)]
pub struct Ones(pub u64);

impl Iterator for Ones {
    type Item = usize;

    ghost next_gives = { TakesLowest };

    ghost remaining = { λ s. at_most s.0 };

    fn next(&mut self) -> Option<usize> {
        let d = self.0;
        if d == 0 {
            return None;
        }
        self.0 = d & (d - 1);
        Some(d.trailing_zeros() as usize)
    }
}
