// Where a book comes from.
use std::io;
use std::io::{Read, Stdin};

// Standard input, or a file.
#[derive(Drop)]
pub enum Source<F> {
    Input(Stdin),
    File(F),
}

impl<F: Read> Read for Source<F> {
    fn read(&mut self, buf: &mut [u8]) -> io::Result<usize> {
        match self {
            Source::Input(input) => input.read(buf),
            Source::File(file) => file.read(buf),
        }
    }
}
