// Fields and numbers of a text. A field of a line is what stands between two tabs; its number has one to five decimal
// digits and no leading zero. Nothing here knows what the numbers mean.
#![tactic(auto)]

ghost use Rattle.std.specs.Prelude.{◌≡◌, ◌+◌, ◌<◌, ◌≤◌, length, get_or};
ghost use Rattle.text.specs.Split.{first};
ghost use Rattle.numbers.specs.Number.{written, wrong};
ghost use Rattle.numbers.specs.Field.{Begins, field_of, fields_by, fields_of};
ghost use Rattle.numbers.specs.Digits.{front, digits_of};

// The most numbers that a run of fields may have.
pub const MOST: usize = 4;

// The number of the field that a text begins with, where the field ends, and the byte there.
#[derive(Clone, Copy)]
struct FieldRead {
    number: u32,
    end: usize,
    stop: u8,
}

// The digits that a text begins with: how many, six at the most, the number that they write, and the byte behind them.
#[derive(Clone, Copy)]
struct Run {
    count: usize,
    value: u32,
    stop: u8,
}

// The numbers of a run of fields, zeros after them; a count of 0 where the fields are wrong. An array of fixed size, since nothing lies on a heap; and no
// Option, since each test of a line asks the count anyway, and so turns wrong fields away with too few.
#[derive(Clone, Copy)]
pub struct Numbers {
    pub count: usize,
    pub at: [u32; MOST],
}

// The numbers of the fields of a line, and where the line ends.
#[derive(Clone, Copy)]
pub struct FieldsRead {
    pub numbers: Numbers,
    pub end: usize,
}

// The decimal digits of a number, most significant first, zeros after them. An array of fixed size, since nothing lies on a heap.
#[derive(Clone, Copy)]
pub struct Digits {
    pub count: usize,
    pub at: [u8; 5],
}

// The digits that s begins with: a sixth is one too many, and none is looked for after it.
fn read_digits(s: &[u8]) -> Run
    ensures { Begins s.now result.value result.count result.stop }
{
    let mut value: u32 = 0;
    for (count, b) in s.iter().enumerate() {
        let stop = *b;
        if 5 < count || !stop.is_ascii_digit() {
            return Run { count, value, stop };
        }
        value = value * 10 + u32::from(stop - b'0');
    }
    Run {
        count: s.len(),
        value,
        stop: b'\n',
    }
}

// Whether so many digits, the first those of s, write a number: one to five, and no leading zero.
fn well_written(s: &[u8], digits: usize) -> bool
    requires { digits ≤ length s.now }
    ensures { result ≡ written digits (get_or s.now 0 0) }
{
    match digits {
        1 => true,
        2..=5 => s[0] != b'0',
        _ => false,
    }
}

// The number of the field that s begins with; none where it is no number.
fn read_field(s: &[u8]) -> Option<FieldRead>
    ensures { result ≡ field_of s.now }
{
    let run = read_digits(s);
    if !well_written(s, run.count) {
        return None;
    }
    let stop = run.stop;
    if stop != b'\n' && stop != b'\t' {
        return None;
    }
    Some(FieldRead {
        number: run.value,
        end: run.count,
        stop,
    })
}

// A line whose fields are wrong.
fn wrong_fields(s: &[u8]) -> FieldsRead
    ensures { result ≡ fields_by wrong (length (first 10 s.now)) }
{
    let numbers = Numbers {
        count: 0,
        at: [0; MOST],
    };
    FieldsRead {
        numbers,
        end: text::find(s, b'\n'),
    }
}

// The numbers of the fields of the line that s begins with. What is left of the line drives the loop: each field takes as many bytes as it has.
pub fn read_fields(s: &[u8]) -> FieldsRead
    ensures { result ≡ fields_of s.now }
{
    let mut count: usize = 0;
    let mut at = [0u32; MOST];
    let mut rest = s;
    loop {
        let Some(f) = read_field(rest) else {
            return wrong_fields(s);
        };
        if MOST <= count {
            return wrong_fields(s);
        }
        at[count] = f.number;
        count += 1;
        if f.stop == b'\n' {
            let numbers = Numbers { count, at };
            return FieldsRead {
                numbers,
                end: s.len() - rest.len() + f.end,
            };
        }
        let b = f.end + 1;
        rest = &rest[b..];
    }
}

// The digits with one more in front of them.
fn put_first(b: u8, d: Digits) -> Digits
    requires { d.count < 5 }
    ensures { result ≡ front b d }
{
    let a = d.at;
    Digits {
        count: d.count + 1,
        at: [b, a[0], a[1], a[2], a[3]],
    }
}

// The decimal digits of n, taken off from its end. What is left of the number drives the loop, and no index.
pub fn write_number(n: u16) -> Digits
    ensures { result ≡ digits_of n }
{
    let mut d = Digits {
        count: 0,
        at: [0; 5],
    };
    let mut left = n;
    while 10 <= left {
        d = put_first(b'0' + (left % 10) as u8, d);
        left /= 10;
    }
    put_first(b'0' + left as u8, d)
}
