//! What is said about a fault, until it is printed.
use std::alloc::{AllocError, Global};
use std::io::{self, Write};

/// Room for a fault's line.
const LINE: usize = 256;

/// What is said about a fault, as far as there is memory for it. There is for the line; an explanation may be cut off.
#[derive(Drop)]
pub struct Told {
    bytes: Vec<u8>,
    is_cut: bool,
}

impl Told {
    pub fn new(alloc: Global) -> Result<Told, AllocError> {
        Ok(Told {
            bytes: Vec::with_capacity(alloc, LINE)?,
            is_cut: false,
        })
    }

    pub fn bytes(&self) -> &[u8] {
        &self.bytes
    }
}

impl Write for Told {
    fn write(&mut self, buf: &[u8]) -> io::Result<usize> {
        if !self.is_cut {
            self.is_cut = self.bytes.extend_from_slice(buf).is_err();
        }
        Ok(buf.len())
    }

    fn flush(&mut self) -> io::Result<()> {
        Ok(())
    }
}
