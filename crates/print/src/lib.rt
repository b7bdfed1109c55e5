// Bytes put into lent memory: from a place on, as many as have room. The answer is the place behind them; one past the end of the memory and one more
// says that something was cut, so that no place can wrap.
#![tactic(auto)]

ghost use Rattle.std.specs.Prelude.{◌≡◌, [], ◌∷◌};
ghost use Rattle.product.specs.Lists.{over};
ghost use Rattle.print.specs.Bytes.{field_bytes, line_bytes, named_bytes};
ghost use Rattle.text.specs.Put.{place_in, Put};

// The place in n bytes, or the one that says that something was cut. Named, since each part of a line begins with it.
pub fn place(n: usize, at: usize) -> usize
    ensures { result ≡ place_in n at }
{
    at.min(n.saturating_add(1))
}

// Puts one byte. The answer is a place and no `Option`: what is put behind a cut is dropped by its place,
// and only the last caller asks whether something was cut.
pub fn put(out: &mut [u8], at: usize, b: u8) -> usize
    ensures { Put out.old out.new at result (b ∷ []) }
{
    if out.len() <= at {
        return out.len() + 1;
    }
    out[at] = b;
    at + 1
}

// Puts a word or the digits of a number. It and `put_fields` have a loop each: one function that is given how to put an item would be no plainer,
// since its contract would speak of what the closure promises of each item and of the memory between them.
pub fn put_all(out: &mut [u8], at: usize, s: &[u8]) -> usize
    ensures { Put out.old out.new at result s.now }
{
    let mut next = place(out.len(), at);
    for b in s {
        next = put(out, next, *b);
    }
    next
}

// Puts a tab and a number.
pub fn put_field(out: &mut [u8], at: usize, n: u16) -> usize
    ensures { Put out.old out.new at result (field_bytes n) }
{
    let next = put(out, at, b'\t');
    let d = numbers::write_number(n);
    let digits = d.at;
    put_all(out, next, &digits[..d.count])
}

// Puts a tab and a number for each of them.
pub fn put_fields(out: &mut [u8], at: usize, numbers: &[u16]) -> usize
    ensures { Put out.old out.new at result (over numbers.now field_bytes) }
{
    let mut next = place(out.len(), at);
    for n in numbers {
        next = put_field(out, next, *n);
    }
    next
}

// Puts a line: a word and numbers.
pub fn put_line(out: &mut [u8], at: usize, word: &[u8], numbers: &[u16]) -> usize
    ensures { Put out.old out.new at result (line_bytes word.now numbers.now) }
{
    let fields = put_all(out, at, word);
    let end = put_fields(out, fields, numbers);
    put(out, end, b'\n')
}

// Puts a line: a word, numbers, and a word as its last field.
pub fn put_named(out: &mut [u8], at: usize, word: &[u8], numbers: &[u16], last: &[u8]) -> usize
    ensures { Put out.old out.new at result (named_bytes word.now numbers.now last.now) }
{
    let fields = put_all(out, at, word);
    let tab = put_fields(out, fields, numbers);
    let name = put(out, tab, b'\t');
    let last_end = put_all(out, name, last);
    put(out, last_end, b'\n')
}
