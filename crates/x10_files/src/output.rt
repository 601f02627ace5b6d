//! Where output goes, with why it couldn't be written.
use std::io::{self, ErrorKind, Write};

/// A writer that keeps why its last write failed that did.
#[derive(Drop)]
pub struct Output<W> {
    writer: W,
    failure: Option<io::Error>,
}

impl<W> Output<W> {
    pub fn new(writer: W) -> Output<W> {
        Output {
            writer,
            failure: None,
        }
    }

    /// Why nothing more can be written.
    pub fn failure(&self) -> Option<&io::Error> {
        self.failure.as_ref()
    }

    /// Whether that is for lack of memory.
    pub fn wants_memory(&self) -> bool {
        match &self.failure {
            Some(error) => error.kind() == ErrorKind::OutOfMemory,
            None => false,
        }
    }

    pub fn writer(&self) -> &W {
        &self.writer
    }

    pub fn into_writer(self) -> W {
        self.writer
    }
}

impl<W: Write> Write for Output<W> {
    fn write(&mut self, buf: &[u8]) -> io::Result<usize> {
        match self.writer.write(buf) {
            Ok(written) => Ok(written),
            Err(error) => {
                let kind = error.kind();
                self.failure = Some(error);
                Err(io::Error::from(kind))
            }
        }
    }

    fn flush(&mut self) -> io::Result<()> {
        self.writer.flush()
    }
}
