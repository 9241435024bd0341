//! Readers and writers that fail in mid-stream.
use std::io;
use std::io::{BufRead, Read, Write};

/// Gives a few bytes at a time, and fails once its reads are used up.
#[derive(Drop)]
pub struct Pieces<'a> {
    pub rest: &'a [u8],
    pub piece: usize,
    pub reads: usize,
}

impl Read for Pieces<'_> {
    fn read(&mut self, _buf: &mut [u8]) -> io::Result<usize> {
        Err(io::Error::from(io::ErrorKind::Unsupported))
    }
}

impl BufRead for Pieces<'_> {
    fn fill_buf(&mut self) -> io::Result<&[u8]> {
        if self.reads == 0 {
            return Err(io::Error::from(io::ErrorKind::BrokenPipe));
        }
        self.reads -= 1;
        Ok(&self.rest[..self.piece.min(self.rest.len())])
    }

    fn consume(&mut self, amount: usize) {
        self.rest = &self.rest[amount.min(self.rest.len())..];
    }
}

/// Gives the same bytes again and again, with no line feed.
#[derive(Drop)]
pub struct Endless;

impl Read for Endless {
    fn read(&mut self, _buf: &mut [u8]) -> io::Result<usize> {
        Err(io::Error::from(io::ErrorKind::Unsupported))
    }
}

impl BufRead for Endless {
    fn fill_buf(&mut self) -> io::Result<&[u8]> {
        Ok(b"xyz")
    }

    fn consume(&mut self, _amount: usize) {}
}

/// Takes a few bytes at a time, and fails once its writes are used up. A flush is a write too.
#[derive(Drop)]
pub struct Front {
    pub held: Vec<u8>,
    pub piece: usize,
    pub writes: usize,
}

impl Write for Front {
    fn write(&mut self, buf: &[u8]) -> io::Result<usize> {
        if self.writes == 0 {
            return Err(io::Error::from(io::ErrorKind::BrokenPipe));
        }
        self.writes -= 1;
        let taken = self.piece.min(buf.len());
        self.held.extend_from_slice(&buf[..taken])?;
        Ok(taken)
    }

    fn flush(&mut self) -> io::Result<()> {
        if self.writes == 0 {
            return Err(io::Error::from(io::ErrorKind::BrokenPipe));
        }
        self.writes -= 1;
        Ok(())
    }
}
