// Input read into lent memory.
#![tactic(auto)]

ghost use Rattle.std.specs.Prelude.{ℕ, ◌<◌, ◌≤◌, IfOk, OnErr, length, take};
ghost use Rattle.std.specs.Io.{ReadsAtMost};
ghost use Rattle.std.specs.Io.KnownBytes.{Consumes, IsAtEnd, ReadConsumes};

use std::io::{Error, ErrorKind, Read, Result};

// One read, made again where a signal cut it short.
fn read_some<R: Read>(reader: &mut R, space: &mut [u8]) -> Result<usize>
    ensures within { ReadsAtMost result space.new }
    ensures bytes { ReadConsumes (R.remaining reader.old) (R.remaining reader.new) result space.new }
{
    for _ in 0..u64::MAX {
        match reader.read(space) {
            Err(e) if e.kind() == ErrorKind::Interrupted => {}
            read => return read,
        }
    }
    Err(Error::from(ErrorKind::Interrupted))
}

// Reads until the input ends or all of the memory is full, and returns how many bytes now stand at its front.
pub fn read_full<R: Read>(reader: &mut R, space: &mut [u8]) -> Result<usize>
    ensures within { IfOk result (λ n. n ≤ length space.new) }
    ensures bytes { IfOk result (λ n. Consumes (R.remaining reader.old) (R.remaining reader.new) (take n space.new)) }
    ensures none_lost { OnErr result ((k : ℕ) × (k ≤ length space.new) × Consumes (R.remaining reader.old) (R.remaining reader.new) (take k space.new)) }
    ensures whole { IfOk result (λ n. n < length space.new → IsAtEnd (R.remaining reader.new)) }
{
    // It counts bytes and not reads: each read goes on by as many as it gave, so there is no range to go over.
    let mut filled = 0;
    while filled < space.len() {
        let n = read_some(reader, &mut space[filled..])?;
        if n == 0 {
            break;
        }
        filled += n;
    }
    Ok(filled)
}
