// The part of lent memory that holds an answer.
#![tactic(auto)]

ghost use Rattle.std.specs.Prelude.{◌≡◌, take};

// The first k bytes, or all where there are fewer: no method of a slice does both, and `get(..k)` has nothing for fewer.
pub fn front(out: &[u8], k: usize) -> &[u8]
    ensures { result.now ≡ take k out.now }
{
    &out[..k.min(out.len())]
}
