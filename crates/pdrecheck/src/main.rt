// Reads a model text with a listing behind it, and writes whether the table is accepted. All of the output is made by `rereport`, which is
// proved, and read and written by `program`. One byte more than the largest of both texts is enough to see that one is too long.
#![tactic(auto)]

ghost use Rattle.text.specs.Put.{Put};
ghost use Rattle.rereport.specs.Output.{recheck_output};

use program::Call;
use std::io;

struct Recheck;

impl Call for Recheck {
    ghost gives = { λ text before k after. Put before after 0 k (recheck_output text) };

    fn call(&self, text: &[u8], out: &mut [u8]) -> usize {
        rereport::recheck_text(text, out)
    }
}

fn main(rt: HostRuntime) -> io::Result<()> {
    let mut text = [0u8; 61441];
    let mut out = [0u8; 64];
    let mut writer = io::writer(&rt);
    program::answer(&Recheck, &mut rt.stdin(), &mut text, &mut out, &mut writer)
}
