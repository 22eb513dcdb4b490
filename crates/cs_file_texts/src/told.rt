//! Readers and writers that remember whether a call failed.
ghost use Rattle.std.specs.Prelude.{◌≡◌, ◌++◌, ◌||◌, is_err, false, ℕ, List, Result, IfErr, IsTrue};
ghost use Rattle.std.specs.declared.io.Error.{Error as IoError};
ghost use Rattle.std.specs.Io.{ReadsAtMost, WritesAtMost};
ghost use Rattle.std.specs.Io.KnownBytes.{Keeps, ReadConsumes, WriteAppends};
ghost use Rattle.cs_file_texts.specs.Calls.{Writes, is_failed_write};
ghost use Rattle.cs_file_texts.specs.Told.{inner_of, has_failed, known};

use crate::fault::OutputFault;
use std::io;
use std::io::{Read, Write};

/// A reader or a writer with a flag. The flag is set once a `read` or a `write` fails, or a `write` of some bytes
/// accepts none.
#[derive(Debug, Drop)]
pub struct Told<T> {
    inner: T,
    failed: bool,
}

impl<T> Told<T> {
    /// Wraps a reader or a writer. The flag is not set.
    pub fn new(inner: T) -> Told<T>
        ensures inner { inner_of result ≡ inner }
        ensures unset { has_failed result ≡ false }
    {
        Told {
            inner,
            failed: false,
        }
    }

    /// Returns the reader or the writer.
    pub fn into_inner(self) -> T
        ensures { result ≡ inner_of self }
    {
        self.inner
    }

    /// Returns whether a call has failed.
    pub fn failed(&self) -> bool
        ensures { result ≡ has_failed self.now }
    {
        self.failed
    }
}

/// A reader, with what one call of it does. Every reader is one. A wrapper that is generic over this trait is proved to
/// call the reader, since nothing else shows what a call does.
pub trait ReadCall: Read {
    // What a call returns, leaves in the buffer, and leaves of the reader.
    ghost reads: { Self → Result ℕ IoError → List ℕ → List ℕ → Self → Type 0 };

    /// Calls `read` once.
    fn call_read(&mut self, buf: &mut [u8]) -> io::Result<usize>
        ensures called { reads self.old result buf.old buf.new self.new }
        ensures bound { ReadsAtMost result buf.new }
        ensures bytes { ReadConsumes (Self.remaining self.old) (Self.remaining self.new) result buf.new };
}

impl<R: Read> ReadCall for R {
    ghost reads = { λ old result before after new. ReadsAtMost result after
        × ReadConsumes (R.remaining old) (R.remaining new) result after };

    fn call_read(&mut self, buf: &mut [u8]) -> io::Result<usize> {
        self.read(buf)
    }
}

/// A writer, with what one call of it does, as [`ReadCall`] has it of a reader.
pub trait WriteCall: Write {
    // What a call of `write` returns, and leaves of the writer.
    ghost writes: { Self → Result ℕ IoError → List ℕ → Self → Type 0 };

    // What a call of `flush` returns, and leaves of the writer.
    ghost flushes: { Self → Result (Unit {0}) IoError → Self → Type 0 };

    /// Calls `write` once.
    fn call_write(&mut self, buf: &[u8]) -> io::Result<usize>
        ensures called { writes self.old result buf.now self.new }
        ensures bound { WritesAtMost result buf.now }
        ensures bytes { WriteAppends (Self.contents self.old) (Self.contents self.new) result buf.now };

    /// Calls `flush` once.
    fn call_flush(&mut self) -> io::Result<()>
        ensures called { flushes self.old result self.new }
        ensures bytes { Keeps (Self.contents self.old) (Self.contents self.new) };
}

impl<W: Write> WriteCall for W {
    ghost writes = { λ old result bytes new. WritesAtMost result bytes
        × WriteAppends (W.contents old) (W.contents new) result bytes };

    ghost flushes = { λ old result new. Keeps (W.contents old) (W.contents new) };

    fn call_write(&mut self, buf: &[u8]) -> io::Result<usize> {
        self.write(buf)
    }

    fn call_flush(&mut self) -> io::Result<()> {
        self.flush()
    }
}

impl<R: ReadCall> Read for Told<R> {
    ghost remaining = { λ told. known R.remaining told };

    fn read(&mut self, buf: &mut [u8]) -> io::Result<usize>
        ensures bound { ReadsAtMost result buf.new }
        ensures bytes { ReadConsumes
            (known R.remaining self.old) (known R.remaining self.new) result buf.new }
        ensures called { R.reads (inner_of self.old) result buf.old buf.new (inner_of self.new) }
        ensures flag { has_failed self.new ≡ (has_failed self.old || is_err result) }
    {
        let result = self.inner.call_read(buf);
        if result.is_err() {
            self.failed = true;
        }
        result
    }
}

impl<W: WriteCall> Write for Told<W> {
    ghost contents = { λ told. known W.contents told };

    fn write(&mut self, buf: &[u8]) -> io::Result<usize>
        ensures bound { WritesAtMost result buf.now }
        ensures bytes { WriteAppends
            (known W.contents self.old) (known W.contents self.new) result buf.now }
        ensures called { W.writes (inner_of self.old) result buf.now (inner_of self.new) }
        ensures flag { has_failed self.new
            ≡ (has_failed self.old || is_failed_write result buf.now) }
    {
        let result = self.inner.call_write(buf);
        match &result {
            Ok(0) if !buf.is_empty() => self.failed = true,
            Ok(_) => {}
            Err(_) => self.failed = true,
        }
        result
    }

    fn flush(&mut self) -> io::Result<()>
        ensures bytes { Keeps (known W.contents self.old) (known W.contents self.new) }
        ensures called { W.flushes (inner_of self.old) result (inner_of self.new) }
        ensures flag { has_failed self.new ≡ has_failed self.old }
    {
        self.inner.call_flush()
    }
}

/// Writes all bytes.
///
/// # Errors
///
/// [`OutputFault`] if a write fails or accepts no byte. Then a prefix of the bytes is written, and the flag of `out` is
/// set.
pub fn write_whole<W: WriteCall>(out: &mut Told<W>, bytes: &[u8]) -> Result<(), OutputFault>
    ensures writes { Writes W.contents result out.old out.new bytes.now }
    ensures failed { IfErr result (λ _. (last : W) × (front rest : List ℕ) × (answer : Result ℕ IoError)
        × (bytes.now ≡ front ++ rest) × W.writes last answer rest (inner_of out.new)
        × IsTrue (is_failed_write answer rest)) }
{
    let mut rest = bytes;
    while !rest.is_empty() {
        match out.write(rest) {
            Ok(count) if count > 0 => rest = &rest[count..],
            _ => return Err(OutputFault),
        }
    }
    Ok(())
}
