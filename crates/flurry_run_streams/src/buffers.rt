//! Buffers in front of any reader and any writer.
ghost use Rattle.flurry_run_streams.specs.Buffers.{input_remaining, input_has_failed, input_can_wait, output_contents, output_flushed, output_has_failed};
ghost use Rattle.std.specs.Prelude.{◌≡◌, IfOk, IfErr, false};
ghost use Rattle.std.specs.IoError.{error_kind};

use crate::streams::{Sink, Source};
use std::alloc::{Allocator, Global};
use std::fmt::Display;
use std::io::{self, BufReader, BufWriter, ErrorKind, Read, Write};

/// A buffer in front of a reader.
///
/// ```
/// let mut input = Input::new(alloc, bytes)?;
/// input.read_byte()
/// ```
#[derive(Drop)]
pub struct Input<R, A: Allocator = Global> {
    reader: BufReader<R, A>,
    failed: bool,
}

impl<R: Read, A: Allocator> Input<R, A> {
    /// Creates a buffer in front of `reader`.
    ///
    /// # Errors
    ///
    /// Returns an error of the kind [`ErrorKind::OutOfMemory`] if memory for the buffer cannot be allocated.
    pub fn new(alloc: A, reader: R) -> io::Result<Self>
    where
        R: Drop,
        ensures bytes { IfOk result (λ input. input_remaining R.remaining input ≡ R.remaining reader) }
        ensures fine { IfOk result (λ input. input_has_failed input ≡ false) }
        ensures err { IfErr result (λ e. error_kind e ≡ ErrorKind.OutOfMemory) }
    {
        let reader = BufReader::new(alloc, reader)?;
        Ok(Input {
            reader,
            failed: false,
        })
    }
}

impl<R: Read, A: Allocator> Source for Input<R, A> {
    ghost remaining = { input_remaining R.remaining };

    ghost has_failed = { input_has_failed };

    ghost can_wait = { input_can_wait };

    fn read_byte(&mut self) -> io::Result<Option<u8>> {
        let mut byte = [0u8; 1];
        match self.reader.read(&mut byte) {
            Ok(0) => Ok(None),
            Ok(_) => Ok(Some(byte[0])),
            Err(error) => {
                self.failed = true;
                Err(error)
            }
        }
    }

    fn may_wait(&self) -> bool {
        self.reader.buffer().iter().all(|byte| *byte != b'\n')
    }
}

/// A buffer in front of a writer.
///
/// When it is dropped, the bytes that it holds are written to the writer, unless a write has failed.
///
/// ```
/// let mut output = Output::new(alloc, Vec::new(alloc))?;
/// write_number(&mut output, number)?;
/// Ok(output)
/// ```
pub struct Output<W: Write + Drop, A: Allocator = Global> {
    writer: BufWriter<W, A>,
    failed: bool,
}

impl<W: Write + Drop, A: Allocator> Output<W, A> {
    /// Creates a buffer in front of `writer`.
    ///
    /// # Errors
    ///
    /// Returns an error of the kind [`ErrorKind::OutOfMemory`] if memory for the buffer cannot be allocated.
    pub fn new(alloc: A, writer: W) -> io::Result<Self>
        ensures bytes { IfOk result (λ output. output_contents W.contents output ≡ W.contents writer) }
        ensures flushed { IfOk result (λ output. output_flushed W.contents output ≡ W.contents writer) }
        ensures fine { IfOk result (λ output. output_has_failed output ≡ false) }
        ensures err { IfErr result (λ e. error_kind e ≡ ErrorKind.OutOfMemory) }
    {
        let writer = BufWriter::new(alloc, writer)?;
        Ok(Output {
            writer,
            failed: false,
        })
    }

    /// Returns a reference to the writer behind the buffer.
    pub fn get_ref(&self) -> &W
        ensures { W.contents result.now ≡ output_flushed W.contents self.now }
    {
        self.writer.get_ref()
    }
}

impl<W: Write + Drop, A: Allocator> Sink for Output<W, A> {
    ghost contents = { output_contents W.contents };

    ghost flushed = { output_flushed W.contents };

    ghost has_failed = { output_has_failed };

    fn write_line<D: Display + Drop>(&mut self, text: D) -> io::Result<()> {
        match self.writer.writeln(text) {
            Ok(()) => Ok(()),
            Err(error) => {
                self.failed = true;
                Err(error)
            }
        }
    }

    fn flush(&mut self) -> io::Result<()> {
        match self.writer.flush() {
            Ok(()) => Ok(()),
            Err(error) => {
                self.failed = true;
                Err(error)
            }
        }
    }
}

impl<W: Write + Drop, A: Allocator> Drop for Output<W, A> {
    fn drop(self) {
        let Output { writer, failed } = self;
        if failed {
            let _ = writer.into_parts();
        }
    }
}
