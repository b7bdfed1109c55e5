// Reads a model on standard input and writes the verdict with its evidence. All of the output is made by `report`, which is proved, and read
// and written by `program`. One byte more than the largest text is enough to see that a text is too long.
#![tactic(auto)]

ghost use Rattle.text.specs.Put.{Put};
ghost use Rattle.report.specs.Output.{check_output};

use program::Call;
use std::io;

struct Check;

impl Call for Check {
    ghost gives = { λ text before k after. Put before after 0 k (check_output text) };

    fn call(&self, text: &[u8], out: &mut [u8]) -> usize {
        report::check_text(text, out)
    }
}

fn main(rt: HostRuntime) -> io::Result<()> {
    let mut text = [0u8; 16385];
    let mut out = [0u8; 131072];
    let mut writer = io::writer(&rt);
    program::answer(&Check, &mut rt.stdin(), &mut text, &mut out, &mut writer)
}
