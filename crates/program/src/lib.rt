// A program that reads a text and writes what one call makes of it.
#![tactic(auto)]

ghost use Rattle.std.specs.Prelude.{ℕ, List, ◌<◌, ◌⊎◌, OnErr, OnOk, length, take};
ghost use Rattle.std.specs.Io.KnownBytes.{Appends, Consumes, IsAtEnd, Keeps};

use std::io::{Read, Result, Write};

// What a program makes of a text.
pub trait Call {
    // The call gives k at the text and leaves the lent memory, which was `before`, as `after`.
    ghost gives: { (text before : List ℕ) → (k : ℕ) → (after : List ℕ) → Type 0 };

    // Puts the answer into `out`, as much of it as has room. Answers its length, or more where it is cut.
    fn call(&self, text: &[u8], out: &mut [u8]) -> usize
        ensures { gives text.now out.old result out.new };
}

// Reads a text, as much of it as `space` has room for, lets the call put its answer into `out`, and writes as many bytes of that as the call
// says, or all where there are fewer. After an error nothing is written, or the text was read, to its end or until the memory was full, and the
// call was made.
pub fn answer<C: Call, R: Read, W: Write>(
    call: &C,
    reader: &mut R,
    space: &mut [u8],
    out: &mut [u8],
    writer: &mut W,
) -> Result<()>
    ensures ok { OnOk result ((n : ℕ) × (k : ℕ)
        × Consumes (R.remaining reader.old) (R.remaining reader.new) (take n space.new)
        × (n < length space.new → IsAtEnd (R.remaining reader.new))
        × C.gives (take n space.new) out.old k out.new
        × Appends (W.contents writer.old) (W.contents writer.new) (take k out.new)) }
    ensures err { OnErr result (Keeps (W.contents writer.old) (W.contents writer.new)
        ⊎ ((n : ℕ) × (k : ℕ)
        × Consumes (R.remaining reader.old) (R.remaining reader.new) (take n space.new)
        × (n < length space.new → IsAtEnd (R.remaining reader.new))
        × C.gives (take n space.new) out.old k out.new)) }
{
    let n = input::read_full(reader, space)?;
    let k = call.call(&space[..n], out);
    writer.write_all(output::front(out, k))
}
