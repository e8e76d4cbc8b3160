//! A reader whose reads fail from a place on.

use std::io::{self, ErrorKind, Read};

/// Gives a text byte by byte, and fails behind so many bytes of it.
#[derive(Drop)]
pub struct FailingReader<'a> {
    text: &'a [u8],
    at: usize,
    fails: usize,
}

impl<'a> FailingReader<'a> {
    /// A reader of this text; `fails` is behind how many bytes.
    pub fn new(text: &'a [u8], fails: usize) -> FailingReader<'a> {
        FailingReader { text, at: 0, fails }
    }
}

impl<'a> Read for FailingReader<'a> {
    fn read(&mut self, buf: &mut [u8]) -> io::Result<usize> {
        if self.at == self.fails {
            return Err(io::Error::from(ErrorKind::BrokenPipe));
        }
        match (self.text.get(self.at), buf.first_mut()) {
            (Some(byte), Some(place)) => {
                *place = *byte;
                self.at = self.at.saturating_add(1);
                Ok(1)
            }
            _ => Ok(0),
        }
    }
}
