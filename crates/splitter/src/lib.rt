// The two parts of one text: a model, and behind it a listing from the first line that starts with `safe`.
#![tactic(auto)]

ghost use Rattle.std.specs.Prelude.{◌≡◌, ◌<◌, length};
ghost use Rattle.splitter.specs.Part.{starts_safe, place, listing_of, model_part};
ghost use Rattle.splitter.specs.Search.{letter_of, safe_at};

// Whether the first four bytes of s are `safe`.
fn starts_safe(s: &[u8]) -> bool
    ensures { result ≡ starts_safe s.now }
{
    s.starts_with(b"safe")
}

// Whether a line begins at `at` that starts with `safe`.
fn safe_at(text: &[u8], at: usize) -> bool
    requires { at < length text.now }
    ensures { result ≡ safe_at text.now at }
{
    let begins = at == 0 || text[at - 1] == b'\n';
    begins && starts_safe(&text[at..])
}

// Which letter of `safe` b is.
fn letter_of(b: u8) -> Option<usize>
    ensures { result ≡ letter_of b }
{
    match b {
        b's' => Some(0),
        b'a' => Some(1),
        b'f' => Some(2),
        b'e' => Some(3),
        _ => None,
    }
}

// Where the first line begins that starts with `safe`, or the length of the text where there is none. Of four places in a
// row the byte at the last says which one it can be, so that only every fourth byte is looked at. The length and no `Option` says
// that there is none, since both parts are cut at the answer.
pub fn listing_at(text: &[u8]) -> usize
    ensures { result ≡ place text.now }
{
    // Not by `step_by`, which takes one place at a time and three times as long.
    for four in 0..text.len() / 4 {
        let last = four * 4 + 3;
        if let Some(letter) = letter_of(text[last]) {
            let at = last - letter;
            if safe_at(text, at) {
                return at;
            }
        }
    }
    text.len()
}

// The listing: the part of the lent text from that line, or nothing.
pub fn listing_of(text: &[u8]) -> &[u8]
    ensures { result.now ≡ listing_of text.now }
{
    let at = listing_at(text);
    &text[at..]
}

// What stands before the listing: the text that the model is read from.
pub fn model_part(text: &[u8]) -> &[u8]
    ensures { result.now ≡ model_part text.now }
{
    let at = listing_at(text);
    &text[..at]
}
