// The row of texts that is read, each behind a line of numbers: its length, and what else the calls are given.
ghost use Rattle.std.specs.Prelude.{length};
ghost use Rattle.std.specs.Iterator.{at_most};

use numbers::Numbers;

// A text, and the numbers in front of it.
#[derive(Clone, Copy)]
pub struct Part<'a> {
    pub numbers: Numbers,
    pub text: &'a [u8],
}

// The texts of a row, up to the first that is not whole.
#[derive(Drop)]
pub struct Parts<'a>(pub &'a [u8]);

impl<'a> Iterator for Parts<'a> {
    type Item = Part<'a>;

    ghost remaining = { λ s. at_most (length s.0.now) };

    fn next(&mut self) -> Option<Part<'a>> {
        let row = self.0;
        let fields = numbers::read_fields(row);
        let numbers = fields.numbers;
        if row.len() <= fields.end || numbers.count == 0 {
            return None;
        }
        let behind = &row[fields.end + 1..];
        let (text, rest) = behind.split_at_checked(numbers.at[0] as usize)?;
        self.0 = rest;
        Some(Part { numbers, text })
    }
}
