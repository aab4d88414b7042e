//! Streams that wait where the system's would not.
ghost use Rattle.std.specs.Prelude.{◌≡◌};
ghost use Rattle.std.specs.Io.{ReadsAtMost, WritesAtMost};
ghost use Rattle.std.specs.Io.KnownBytes.{ReadConsumes, WriteAppends};

use crate::readiness::{await_readable, await_writable};
use std::io;
use std::io::{ErrorKind, Read, Write};
use std::os::fd::AsRawFd;

/// How often a call that would have to wait is tried. Before each further one the stream was ready.
const TRIES: u32 = 64;

/// A stream of the system that may be set not to block, as a pipe that another program made: where a call of it would have to
/// wait, it waits.
#[derive(Drop)]
pub struct Patient<S> {
    stream: S,
}

impl<S> Patient<S> {
    /// The stream. It makes no call of it.
    pub fn over(stream: S) -> Patient<S>
        ensures { result.stream ≡ stream }
    {
        Patient { stream }
    }
}

// Reads, again where the stream had to be waited for.
fn read_waiting<S: Read + AsRawFd>(stream: &mut S, into: &mut [u8]) -> io::Result<usize>
    ensures bound { ReadsAtMost result into.new }
    ensures bytes { ReadConsumes (S.remaining stream.old) (S.remaining stream.new) result into.new }
{
    for _ in 0..TRIES {
        match stream.read(into) {
            Err(e) if e.kind() == ErrorKind::WouldBlock => await_readable(stream.as_raw_fd()),
            done => return done,
        }
    }
    Err(io::Error::from(ErrorKind::WouldBlock))
}

// Writes, again where the stream had to be waited for.
fn write_waiting<S: Write + AsRawFd>(stream: &mut S, piece: &[u8]) -> io::Result<usize>
    ensures bound { WritesAtMost result piece.now }
    ensures bytes { WriteAppends (S.contents stream.old) (S.contents stream.new) result piece.now }
{
    for _ in 0..TRIES {
        match stream.write(piece) {
            Err(e) if e.kind() == ErrorKind::WouldBlock => await_writable(stream.as_raw_fd()),
            done => return done,
        }
    }
    Err(io::Error::from(ErrorKind::WouldBlock))
}

impl<S: Read + AsRawFd> Read for Patient<S> {
    ghost remaining = { λ p. S.remaining p.stream };

    fn read(&mut self, into: &mut [u8]) -> io::Result<usize> {
        read_waiting(&mut self.stream, into)
    }
}

impl<S: Write + AsRawFd> Write for Patient<S> {
    ghost contents = { λ p. S.contents p.stream };

    fn write(&mut self, piece: &[u8]) -> io::Result<usize> {
        write_waiting(&mut self.stream, piece)
    }

    fn flush(&mut self) -> io::Result<()> {
        self.stream.flush()
    }
}
