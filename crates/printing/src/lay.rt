// A line put where it has room: no byte of it needs a test of its own. It stands beside `print`, which tests each, for speed: most of a listing is such lines.
ghost use Rattle.std.specs.Prelude.{◌≡◌, ◌+◌, ◌*◌, ◌≤◌, length};
ghost use Rattle.numbers.specs.Digits.{decimal};
ghost use Rattle.print.specs.Bytes.{field_bytes, line_bytes};
ghost use Rattle.product.specs.Lists.{over};
ghost use Rattle.text.specs.Put.{Put};

// Byte by byte: `copy_from_slice` asks at each line where its word lies, and a listing took up to 7 % longer.
fn word(out: &mut [u8], at: usize, s: &[u8]) -> usize
    requires { at + length s.now ≤ length out.old }
    ensures { Put out.old out.new at result s.now }
{
    for (i, b) in s.iter().enumerate() {
        out[at + i] = *b;
    }
    at + s.len()
}

// How many digits a number has.
fn digit_count(n: u16) -> usize
    ensures { result ≡ length (decimal n) }
{
    if n < 10 {
        return 1;
    }
    if n < 100 {
        return 2;
    }
    if n < 1000 {
        return 3;
    }
    if n < 10000 {
        return 4;
    }
    5
}

// The digits of a number, the last first: what is left of the number drives the loop, and no index does.
fn digits(out: &mut [u8], at: usize, n: u16) -> usize
    requires { at + 5 ≤ length out.old }
    ensures { Put out.old out.new at result (decimal n) }
{
    let end = at + digit_count(n);
    let mut i = end;
    let mut left = n;
    while 10 <= left {
        i -= 1;
        out[i] = b'0' + (left % 10) as u8;
        left = left / 10;
    }
    out[at] = b'0' + left as u8;
    end
}

// A tab and a number. Most numbers have one digit.
fn field(out: &mut [u8], at: usize, n: u16) -> usize
    requires { at + 6 ≤ length out.old }
    ensures { Put out.old out.new at result (field_bytes n) }
{
    out[at] = b'\t';
    let first = at + 1;
    if n < 10 {
        out[first] = b'0' + n as u8;
        return first + 1;
    }
    digits(out, first, n)
}

fn fields(out: &mut [u8], at: usize, numbers: &[u16]) -> usize
    requires { at + 6 * length numbers.now ≤ length out.old }
    ensures { Put out.old out.new at result (over numbers.now field_bytes) }
{
    let mut next = at;
    for n in numbers {
        next = field(out, next, *n);
    }
    next
}

pub(crate) fn line(out: &mut [u8], at: usize, s: &[u8], numbers: &[u16]) -> usize
    requires { at + length s.now + 6 * length numbers.now + 1 ≤ length out.old }
    ensures { Put out.old out.new at result (line_bytes s.now numbers.now) }
{
    let first = word(out, at, s);
    let end = fields(out, first, numbers);
    out[end] = b'\n';
    end + 1
}
