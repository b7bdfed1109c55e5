// Rows of cells, written on standard output and counted.
use std::fmt::Display;
use std::io::Result;

// Writes the first n cells, or all where there are fewer.
pub fn cells<T: Display>(rt: &impl Print, s: &[T], n: usize) -> Result<()> {
    for c in s.iter().take(n) {
        print!(rt; "\t{c}")?;
    }
    Ok(())
}

// How many cells are x.
pub fn count<T: Copy + PartialEq>(s: &[T], x: T) -> usize {
    s.iter().filter(|c| **c == x).count()
}
