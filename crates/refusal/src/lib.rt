// The line of a refusal; and a model text read, with the line of its refusal put where it is no model.
#![tactic(auto)]

ghost use Rattle.text.specs.Put.{Put};
ghost use Rattle.refusal.specs.Refusal.{refused_bytes, Seeing};

use lent::Lent;

// Puts the line of a refusal.
pub fn put_refused(out: &mut [u8], number: u16, line: u16) -> usize
    ensures { Put out.old out.new 0 result (refused_bytes number line) }
{
    let row = [number, line];
    print::put_line(out, 0, b"refused", &row)
}

// Reads a model into the lent bytes. Where there is none the line of the refusal is put: the error is the place behind it.
pub fn read_or_refuse(text: &[u8], m: &mut Lent, out: &mut [u8]) -> Result<(), usize>
    ensures { Seeing text.now out.old out.new result m.new }
{
    match reader::read_model(text, m) {
        Ok(()) => Ok(()),
        Err(e) => Err(put_refused(out, u16::from(e.number()), e.line() as u16)),
    }
}
