// The bytes of a text: where a byte stands, and whether two runs of bytes are the same.
#![tactic(auto)]

ghost use Rattle.std.specs.Prelude.{◌≡◌, length};
ghost use Rattle.text.specs.Split.{first, same_bytes};

// Where the first c of s stands, or the length of s where there is none.
pub fn find(s: &[u8], c: u8) -> usize
    ensures { result ≡ length (first c s.now) }
{
    s.iter().position(|b| *b == c).unwrap_or(s.len())
}

// Whether two slices hold the same bytes. `==` says so too, but is a call of its own for each word of each line; this is put in place.
pub fn same(a: &[u8], b: &[u8]) -> bool
    ensures { result ≡ same_bytes a.now b.now }
{
    if a.len() != b.len() {
        return false;
    }
    for i in 0..a.len() {
        if a[i] != b[i] {
            return false;
        }
    }
    true
}
